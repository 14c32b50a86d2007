// What holds of all graphs and their runs.
ghost use Rattle.std.specs.Prelude.{◌≡◌, ◌≢◌, ◌⊎◌, ℕ, suc, ◌+◌, ◌≤◌, ◌==◌, true, List, length, Option, Some, slice_get};
ghost use Rattle.cp_base.specs.declared.layout.Layout.{Layout};
ghost use Rattle.run_model.specs.Stores.{World, Store, IsPrefix};
ghost use Rattle.run_model.specs.declared.outcome.Outcome.TheVariants.{Running};
ghost use Rattle.ssa_core.specs.Shapes.{Shape, Becomes, IsReplaced};
ghost use Rattle.ssa_core.specs.Walks.{Walk, end, IsWalk, Visits, along};
ghost use Rattle.firm_rules.specs.declared.node.NodeId.{NodeId};
ghost use Rattle.firm_rules.specs.Graphs.{FirmNode, Firm, Program};
ghost use Rattle.firm_rules.specs.Lookups.{node_at, node_id, mode_at, first_of, IsBlock, shape};
ghost use Rattle.firm_rules.specs.Rules.{is_phi, acts_in, takes_from, chain, ComesTo, Obeys, IsClosed, IsWhole, HasOnly};
ghost use Rattle.firm_rules.specs.Frames.{Frame, first_frame, word_by, word_within, word_at};
ghost use Rattle.firm_rules.specs.Runs.{Cause, no_main, no_status, bad_access, no_value, came, stuck, Result, stops, store_of, Runs, run, FirmRan, firm_run, RunsProgram};
ghost use Rattle.firm_rules.specs.Replacing.{IsRenamed, Pairs};
ghost use Rattle.firm_rules.specs.Visits.{History, with_visit, word_on, Comes};

/// The run as a function gives what the run as a relation says, where the bound of the turns is not below those that are
/// left; and the relation says something.
pub fn run_agrees()
    ensures gives { (p : Program) (w : World) (turns : ℕ) (g : Firm) (b : ℕ) (f : Frame) (s : Store) (r : Result (Option ℕ))
        → s.turns ≤ turns
        → Runs p w g b (chain g b) f s r
        → run p w turns g b f s ≡ r }
    ensures says { (p : Program) (w : World) (turns : ℕ) (g : Firm) (b : ℕ) (f : Frame) (s : Store)
        → s.turns ≤ turns
        → Runs p w g b (chain g b) f s (run p w turns g b f s) }
    ensures program_gives { (p : Program) (image : List ℕ) (layout : Layout) (input : List ℕ) (depth turns : ℕ) (ran : FirmRan)
        → RunsProgram p image layout input depth turns ran
        → firm_run p image layout input depth turns ≡ ran }
    ensures program_says { (p : Program) (image : List ℕ) (layout : Layout) (input : List ℕ) (depth turns : ℕ)
        → RunsProgram p image layout input depth turns (firm_run p image layout input depth turns) }
{}

/// A run is determined, from any point on.
pub fn run_is_determined()
    ensures { (p : Program) (w : World) (g : Firm) (b : ℕ) (nodes : List ℕ) (f : Frame) (s : Store) (r q : Result (Option ℕ))
        → Runs p w g b nodes f s r
        → Runs p w g b nodes f s q
        → r ≡ q }
{}

/// The output only grows, the turns left only fall, and a run is cut off only where none is left.
pub fn run_grows()
    ensures output { (p : Program) (w : World) (g : Firm) (b : ℕ) (nodes : List ℕ) (f : Frame) (s : Store) (r : Result (Option ℕ))
        → Runs p w g b nodes f s r
        → IsPrefix s.out (store_of r).out }
    ensures turns { (p : Program) (w : World) (g : Firm) (b : ℕ) (nodes : List ℕ) (f : Frame) (s : Store) (r : Result (Option ℕ))
        → Runs p w g b nodes f s r
        → (store_of r).turns ≤ s.turns }
    ensures cut_off { (p : Program) (w : World) (g : Firm) (b : ℕ) (nodes : List ℕ) (f : Frame) (s t : Store)
        → Runs p w g b nodes f s (stops (came Running) t)
        → t.turns ≡ 0 }
{}

/// A closed program of graphs that obey the rules is stuck only where it has no proper `main`, where `main` gives no value, at
/// an access, or where a value is wanted that a call does not give.
pub fn stuck_where()
    ensures { (p : Program) (image : List ℕ) (layout : Layout) (input : List ℕ) (depth turns : ℕ) (c : Cause)
        → IsClosed p
        → ((index : ℕ) (g : Firm) → slice_get p.graphs index ≡ Some g → Obeys g)
        → (firm_run p image layout input depth turns).outcome ≡ stuck c
        → (c ≡ no_main) ⊎ ((c ≡ no_status) ⊎ ((c ≡ bad_access) ⊎ (c ≡ no_value))) }
{}

/// Where the rules hold, each node of a block has in it the word of its operation, by the words of its operands; and no greater
/// bound of the steps from operand to operand makes a difference.
pub fn words_are_of_operations()
    ensures word { (base : ℕ) (g : Firm) (b : ℕ) (f : Frame) (n : ℕ) (node : FirmNode)
        → Obeys g
        → node_at g n ≡ Some node
        → node.block ≡ b
        → word_at base g b f n ≡ word_by base f (word_at base g b f) node.op node.operands n }
    ensures bound { (base : ℕ) (g : Firm) (b : ℕ) (f : Frame) (more n : ℕ)
        → Obeys g
        → word_within base g b f (more + length g.nodes) n ≡ word_at base g b f n }
{}

/// The chain of a block has nodes of the block that act, and each but the first takes what the one before gives. Where the rules
/// hold, it has each of them once.
pub fn chain_is_in_order()
    ensures acts { (g : Firm) (b index n : ℕ) → slice_get (chain g b) index ≡ Some n → acts_in b (node_at g n) ≡ true }
    ensures takes { (g : Firm) (b index n m : ℕ) (node : FirmNode)
        → slice_get (chain g b) index ≡ Some n
        → slice_get (chain g b) (suc index) ≡ Some m
        → node_at g m ≡ Some node
        → takes_from g (λ giver. giver == n) node.operands ≡ true }
    ensures whole { (g : Firm) (b n : ℕ)
        → Obeys g
        → IsBlock g b
        → acts_in b (node_at g n) ≡ true
        → (index : ℕ) × (slice_get (chain g b) index ≡ Some n) }
    ensures once { (g : Firm) (b i j n : ℕ)
        → Obeys g
        → slice_get (chain g b) i ≡ Some n
        → slice_get (chain g b) j ≡ Some n
        → i ≡ j }
{}

/// At each point that a call comes to, each node has the word that what it means on the walk had at its visit; of the present
/// visit that is its word now, which a node that takes memory gets when it acts. Where the rules hold, the blocks that the call
/// has entered are a walk. And what the run from the point comes to, the run of the call comes to.
pub fn words_agree()
    ensures words { (p : Program) (w : World) (g : Firm) (arguments : List ℕ) (start : Store) (walk : Walk) (nodes : List ℕ) (f : Frame) (h : History) (s : Store) (v : NodeId)
        → Comes p w g arguments start walk nodes f h s
        → word_at w.base g (end (shape g) walk) f v.number
        ≡ word_on (with_visit h walk (word_at w.base g (end (shape g) walk) f)) (along (shape g) walk v) }
    ensures walk { (p : Program) (w : World) (g : Firm) (arguments : List ℕ) (start : Store) (walk : Walk) (nodes : List ℕ) (f : Frame) (h : History) (s : Store)
        → Obeys g
        → Comes p w g arguments start walk nodes f h s
        → IsWalk (shape g) walk × IsBlock g (end (shape g) walk) }
    ensures runs { (p : Program) (w : World) (g : Firm) (arguments : List ℕ) (start : Store) (walk : Walk) (nodes : List ℕ) (f : Frame) (h : History) (s : Store) (r : Result (Option ℕ))
        → Comes p w g arguments start walk nodes f h s
        → Runs p w g (end (shape g) walk) nodes f s r
        → Runs p w g (first_of g.order) (chain g (first_of g.order)) (first_frame arguments) start r }
{}

/// Of a graph that obeys the rules: where each walk to a block passes the block of a trivial Phi, the Phi means what its other
/// value means on each of these walks, and has the same word there. Where the other value is put in its place, what stands for a
/// value means the same on each walk to a block to which each walk passes the value's block.
pub fn trivial_phi()
    ensures means { (g : Firm) (n other : ℕ) (node : FirmNode) (walk : Walk)
        → Obeys g
        → node_at g n ≡ Some node
        → is_phi node.op ≡ true
        → HasOnly node n other
        → IsWalk (shape g) walk
        → ((w : Walk) → ComesTo g w (end (shape g) walk) → Visits (shape g) w node.block)
        → along (shape g) walk (node_id n) ≡ along (shape g) walk (node_id other) }
    ensures words { (p : Program) (w : World) (g : Firm) (arguments : List ℕ) (start : Store) (walk : Walk) (nodes : List ℕ) (f : Frame) (h : History) (s : Store) (n other : ℕ) (node : FirmNode)
        → Obeys g
        → node_at g n ≡ Some node
        → is_phi node.op ≡ true
        → HasOnly node n other
        → Comes p w g arguments start walk nodes f h s
        → ((u : Walk) → ComesTo g u (end (shape g) walk) → Visits (shape g) u node.block)
        → word_at w.base g (end (shape g) walk) f n ≡ word_at w.base g (end (shape g) walk) f other }
    ensures replaced { (g : Firm) (n other : ℕ) (node : FirmNode) (t : Shape NodeId) (walk : Walk) (x y : NodeId)
        → Obeys g
        → node_at g n ≡ Some node
        → is_phi node.op ≡ true
        → HasOnly node n other
        → other ≢ n
        → IsReplaced (shape g) t (node_id n) (node_id other)
        → IsWalk (shape g) walk
        → Becomes (node_id n) (node_id other) x y
        → ((w : Walk) → ComesTo g w (end (shape g) walk) → Visits (shape g) w ((shape g).block x))
        → along t walk y ≡ along (shape g) walk x }
{}

/// Putting the other value in the place of a trivial Phi, where both have one mode, keeps the rules, and the run of each program
/// that has the graph.
pub fn replacing_keeps()
    ensures rules { (g h : Firm) (old other : ℕ) (node : FirmNode)
        → Obeys g
        → IsWhole g
        → node_at g old ≡ Some node
        → is_phi node.op ≡ true
        → HasOnly node old other
        → other ≢ old
        → mode_at g other ≡ mode_at g old
        → IsRenamed g h old other
        → Obeys h }
    ensures run { (g h : Firm) (old other : ℕ) (node : FirmNode) (p q : Program) (image : List ℕ) (layout : Layout) (input : List ℕ) (depth turns : ℕ)
        → Obeys g
        → node_at g old ≡ Some node
        → is_phi node.op ≡ true
        → HasOnly node old other
        → other ≢ old
        → IsRenamed g h old other
        → Pairs g h p.graphs q.graphs
        → firm_run q image layout input depth turns ≡ firm_run p image layout input depth turns }
{}
