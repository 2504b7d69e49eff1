// Laws of the elaboration graph and of orders, as contracts of functions without code.
ghost use Rattle.std.specs.Prelude.{◌≡◌, ◌≢◌, ℕ, IsTrue, List, Some};
ghost use Rattle.std.specs.List.{Contains};
ghost use Rattle.al_base.specs.Batch.{Key};
ghost use Rattle.al_base.specs.declared.unit_key.UnitKind.TheVariants.{Decl, Body};
ghost use Rattle.al_base_graph.specs.declared.edge.Reason.{Reason};
ghost use Rattle.al_base_graph.specs.declared.edge.Reason.TheVariants.{ElaborateAll};
ghost use Rattle.al_unit_graph.specs.Headers.{Header, Library};
ghost use Rattle.al_unit_graph.specs.Library.{unit_at};
ghost use Rattle.al_unit_graph.specs.Needed.{Needed};
ghost use Rattle.al_bind.specs.Elaboration.{Carries, IsItem, is_pair, node_of};
ghost use Rattle.al_bind.specs.Laws.{OrderExcludesCycle, PairsStayTogether};

/// The two parts of a pair under Elaborate_Body are one node, and no edge is between them. So nothing is elaborated between them.
pub fn pair_is_one_node()
    ensures one { (lib : Library) (name : List ℕ) → IsTrue (is_pair lib name) → node_of lib (name, Body) ≡ node_of lib (name, Decl) }
    ensures no_edge { (lib : Library) (main name : List ℕ) (reason : Reason) → IsTrue (is_pair lib name) → Carries lib main reason (name, Body) (name, Decl) → ⊥ }
{}

/// An item whose unit names Q in Elaborate_All comes after every needed item of another node that Q's declaration needs.
pub fn all_needed_come_before()
    ensures { (lib : Library) (main q : List ℕ) (x y : Key) (h : Header) → IsItem lib main x → IsItem lib main y → unit_at lib x ≡ Some h → Contains h.elaborate_all q → Needed lib q y → node_of lib x ≢ node_of lib y → Carries lib main ElaborateAll x y }
{}

/// In the order, the body of a pair under Elaborate_Body comes right after its declaration (ARM 10.2.1(26)).
pub fn pairs_stay_together()
    ensures { PairsStayTogether }
{}

/// A partition has an order or a cycle, and never both.
pub fn order_excludes_cycle()
    ensures { OrderExcludesCycle }
{}
