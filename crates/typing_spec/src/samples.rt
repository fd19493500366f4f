//! What the definition of typing says of small texts, each read from its bytes.

ghost use Rattle.typing_spec.specs.Declarations.{Declarators, Specifiers, Linkage};
ghost use Rattle.typing_spec.specs.Initialized.{Scalars, Lists};
ghost use Rattle.typing_spec.specs.Refused.{RefusedDeclarations, RefusedInitializers, RefusedStatements, RefusedExpressions};
ghost use Rattle.typing_spec.specs.Trees.{Integers, Pointers, Statements};
ghost use Rattle.typing_spec.specs.Wholes.{Reached, Stored, Unreached};

/// What declarations declare: 53 texts.
pub fn law_declaration_samples()
    ensures declarators { Declarators }
    ensures specifiers { Specifiers }
    ensures linkage { Linkage }
{}

/// What initializers give: 42 texts.
pub fn law_initializer_samples()
    ensures scalars { Scalars }
    ensures lists { Lists }
{}

/// Texts that break one constraint: 107 texts.
pub fn law_refused_samples()
    ensures refused_declarations { RefusedDeclarations }
    ensures refused_initializers { RefusedInitializers }
    ensures refused_statements { RefusedStatements }
    ensures refused_expressions { RefusedExpressions }
{}

/// The trees of expressions and statements: 75 texts.
pub fn law_tree_samples()
    ensures integers { Integers }
    ensures pointers { Pointers }
    ensures statements { Statements }
{}

/// Members and whole structures: 43 texts.
pub fn law_structure_samples()
    ensures reached { Reached }
    ensures stored { Stored }
    ensures unreached { Unreached }
{}
