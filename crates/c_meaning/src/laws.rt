// What holds of all runs.
ghost use Rattle.std.specs.Prelude.{◌≡◌, ◌≢◌, ℕ, ◌≤◌, List, Option};
ghost use Rattle.cp_base.specs.declared.layout.Layout.{Layout};
ghost use Rattle.run_model.specs.declared.outcome.Outcome.TheVariants.{Running, Deep};
ghost use Rattle.run_model.specs.Stores.{World, Store, IsPrefix};
ghost use Rattle.c_types.specs.declared.tree.Expr.{Expr};
ghost use Rattle.c_types.specs.declared.tree.Stmt.{Stmt};
ghost use Rattle.c_types.specs.declared.tree.Unit.{Unit as Whole};
ghost use Rattle.c_meaning.specs.Steps.{State, Gives, Stops, out_of};
ghost use Rattle.c_meaning.specs.Meaning.{Flow, eval, at_turn, run};
ghost use Rattle.c_meaning.specs.Runs.{c_run};

/// The output only grows: after a statement, and after an expression, it begins with what it was before.
pub fn output_grows()
    ensures statement { (u : Whole) (w : World) (turns : ℕ) (st : Stmt) (s : State)
        → IsPrefix s.store.out (out_of (run u w turns st s)) }
    ensures expression { (u : Whole) (w : World) (turns : ℕ) (e : Expr) (s : State)
        → IsPrefix s.store.out (out_of (eval u w (at_turn u w turns) e s)) }
{}

/// The turns left only fall, and a run is cut off only where none is left.
pub fn turns_fall()
    ensures statement { (u : Whole) (w : World) (turns : ℕ) (st : Stmt) (s t : State) (flow : Flow)
        → s.store.turns ≤ turns
        → run u w turns st s ≡ Gives flow t
        → t.store.turns ≤ s.store.turns }
    ensures running { (u : Whole) (w : World) (turns : ℕ) (st : Stmt) (s : State) (store : Store)
        → s.store.turns ≤ turns
        → run u w turns st s ≡ Stops Running store
        → store.turns ≡ 0 }
{}

/// A bound of the turns that is not below those that are left changes nothing.
pub fn bound_of_turns()
    ensures statement { (u : Whole) (w : World) (turns others : ℕ) (st : Stmt) (s : State)
        → s.store.turns ≤ turns
        → s.store.turns ≤ others
        → run u w turns st s ≡ run u w others st s }
    ensures expression { (u : Whole) (w : World) (turns others : ℕ) (e : Expr) (s : State)
        → s.store.turns ≤ turns
        → s.store.turns ≤ others
        → eval u w (at_turn u w turns) e s ≡ eval u w (at_turn u w others) e s }
{}

/// With more turns a run that was not cut off is the same, so one that is undefined stays so. One that was cut off goes
/// on from the same output. And what is cut off after many turns is cut off after fewer.
pub fn more_turns()
    ensures same { (u : Whole) (layout : Layout) (input : List ℕ) (depth turns more : ℕ)
        → turns ≤ more
        → (c_run u layout input depth turns).outcome ≢ Running
        → c_run u layout input depth more ≡ c_run u layout input depth turns }
    ensures output { (u : Whole) (layout : Layout) (input : List ℕ) (depth turns more : ℕ)
        → turns ≤ more
        → IsPrefix (c_run u layout input depth turns).out (c_run u layout input depth more).out }
    ensures running { (u : Whole) (layout : Layout) (input : List ℕ) (depth turns more : ℕ)
        → turns ≤ more
        → (c_run u layout input depth more).outcome ≡ Running
        → (c_run u layout input depth turns).outcome ≡ Running }
{}

/// At a greater depth a run that was not too deep is the same; one that was too deep goes on from the same output.
pub fn more_depth()
    ensures same { (u : Whole) (layout : Layout) (input : List ℕ) (depth deeper turns : ℕ)
        → depth ≤ deeper
        → (c_run u layout input depth turns).outcome ≢ Deep
        → c_run u layout input deeper turns ≡ c_run u layout input depth turns }
    ensures output { (u : Whole) (layout : Layout) (input : List ℕ) (depth deeper turns : ℕ)
        → depth ≤ deeper
        → IsPrefix (c_run u layout input depth turns).out (c_run u layout input deeper turns).out }
{}
