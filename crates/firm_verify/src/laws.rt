// What the rules, one by one, say of graphs that obey them all.
ghost use Rattle.std.specs.Prelude.{◌<◌, ℕ, length, Option};
ghost use Rattle.firm_rules.specs.declared.node.NodeId.{NodeId};
ghost use Rattle.firm_rules.specs.Graphs.{Firm};
ghost use Rattle.firm_rules.specs.Rules.{Obeys};
ghost use Rattle.firm_verify.specs.Broken.{IsBroken, HoldAll};

/// A graph obeys the rules where it has a block and each rule holds; and where one is broken it does not.
pub fn rules_are_all()
    ensures obeys { (g : Firm) → 0 < length g.order → HoldAll g → Obeys g }
    ensures holds { (g : Firm) → Obeys g → HoldAll g }
    ensures broken { (g : Firm) (rule : ℕ) (node : Option NodeId) (b : ℕ) → IsBroken g rule node b → Obeys g → ⊥ }
{}
