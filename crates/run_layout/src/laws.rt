// Laws of listings, and of choices.
ghost use Rattle.std.specs.Prelude.{◌≡◌, ℕ};
ghost use Rattle.c_typed.specs.Order.{Taken};
ghost use Rattle.core_ir.specs.Term.{Term, listing};
ghost use Rattle.run_layout.specs.Listings.{flat, passed, within};
ghost use Rattle.run_layout.specs.Chosen.{ChosenAtOnce, ChosenAtTest, ChosenElsewhere};
ghost use Rattle.run_layout.specs.Keeping.{KeepsAtBegin, KeepsAtEvent};

/// What is laid out of a term lists the term's events, of nodes of the full expression, whatever operands are chosen.
pub fn law_listing()
    ensures { (count : ℕ) (taken : Taken) (t : Term) → passed taken 0 (flat count t) ≡ within count (listing taken t) }
{}

/// The choices that the code makes are those of the definitions, of the nodes that are evaluated, and it makes none of others: as a full
/// expression begins, and at each event (`begins`, `event`, by the tables of the code). That is so by the tree: of what is known beforehand
/// (`at_once`), as the test of a node that chooses has its value (`at_test`), and at any other event (`elsewhere`).
pub fn law_choices()
    ensures begins { KeepsAtBegin }
    ensures event { KeepsAtEvent }
    ensures at_once { ChosenAtOnce }
    ensures at_test { ChosenAtTest }
    ensures elsewhere { ChosenElsewhere }
{}
