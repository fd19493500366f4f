// Parts of C, and of what compilers add to it, that the profile leaves out.

/// A part of C that is left out, or what compilers add to C11.
#[derive(Clone, Copy, PartialEq, Eq)]
pub enum Part {
    FloatingType,
    FloatingConstant,
    Volatile,
    Threads,
    Generic,
    Alignment,
    FunctionName,
    BitField,
    WideLiteral,
    UniversalName,
    SeveralCharacters,
    VariadicDefinition,
    VariableLength,
    FlexibleMember,
    CompoundLiteral,
    StaticLength,
    OldDefinition,
    ArrayOfValue,
    FunctionConversion,
    PartTwice,
    StaticAddress,
    LargeText,
    // What compilers add.
    Word,
    BinaryConstant,
    StatementExpression,
    LabelAddress,
    Range,
    ShortConditional,
}

impl Part {
    /// Its name.
    pub fn name(self) -> &'static str {
        match self {
            Part::FloatingType | Part::FloatingConstant => "floating types",
            Part::Volatile => "volatile",
            Part::Threads => "threads",
            Part::Generic => "generic selections",
            Part::Alignment => "alignments that are asked for",
            Part::FunctionName => "the name __func__",
            Part::BitField => "bit-fields",
            Part::WideLiteral => "wide and Unicode literals",
            Part::UniversalName => "universal character names",
            Part::SeveralCharacters => "character constants of several characters",
            Part::VariadicDefinition => "variadic definitions",
            Part::VariableLength => "variable length arrays",
            Part::FlexibleMember => "flexible array members",
            Part::CompoundLiteral => "compound literals",
            Part::StaticLength => "static in array parameters",
            Part::OldDefinition => "definitions with a list of names",
            Part::ArrayOfValue => "array members of values that are no lvalues",
            Part::FunctionConversion => "conversions of function pointers",
            Part::PartTwice => "lists that initialize a part twice",
            Part::StaticAddress => "addresses of every form in initializers",
            Part::LargeText => "texts above its limits",
            Part::Word
            | Part::BinaryConstant
            | Part::StatementExpression
            | Part::LabelAddress
            | Part::Range
            | Part::ShortConditional => "extensions of compilers",
        }
    }

    /// What is said behind the token that belongs to it.
    pub fn sentence(self) -> &'static str {
        match self {
            Part::FloatingType => "names a floating type",
            Part::FloatingConstant => "is a floating constant",
            Part::Volatile => "qualifies a type",
            Part::Threads => "belongs to threads",
            Part::Generic => "selects by a type",
            Part::Alignment => "asks for an alignment",
            Part::FunctionName => "is the name of the function",
            Part::BitField => "begins the width of a bit-field",
            Part::WideLiteral => "begins a literal of wide or Unicode characters",
            Part::UniversalName => "has a universal character name",
            Part::SeveralCharacters => "has several characters",
            Part::VariadicDefinition => {
                "lets a function that is defined here take variable arguments"
            }
            Part::VariableLength => "declares an array whose length isn't constant",
            Part::FlexibleMember => "is a flexible array member",
            Part::CompoundLiteral => "begins the list of a compound literal",
            Part::StaticLength => "asks for a length of an array parameter",
            Part::OldDefinition => "is a parameter whose type stands behind the list",
            _ => self.sentence_of_other(),
        }
    }

    fn sentence_of_other(self) -> &'static str {
        match self {
            Part::ArrayOfValue => "is an array member of a value that is no lvalue",
            Part::FunctionConversion => {
                "is converted between a function pointer and another scalar type"
            }
            Part::PartTwice => "initializes what the list has initialized before",
            Part::StaticAddress => "is an address of a form that isn't read",
            Part::LargeText => "is above a limit of this tool",
            Part::BinaryConstant => "is a binary constant",
            Part::StatementExpression => "begins a statement inside an expression",
            Part::LabelAddress => "takes a label as a value",
            Part::Range => "is a range",
            Part::ShortConditional => "leaves out the second operand of ?:",
            _ => "is an extension of some compilers",
        }
    }

    /// The paragraph of C that has it; of what compilers add, the one that lets them.
    pub fn paragraph(self) -> &'static str {
        match self {
            Part::FloatingType => "6.2.5p10",
            Part::FloatingConstant => "6.4.4.2",
            Part::Volatile => "6.7.3",
            Part::Threads => "7.17, 7.26",
            Part::Generic => "6.5.1.1",
            Part::Alignment => "6.7.5",
            Part::FunctionName => "6.4.2.2",
            Part::BitField => "6.7.2.1p9",
            Part::WideLiteral => "6.4.4.4, 6.4.5",
            Part::UniversalName => "6.4.3",
            Part::SeveralCharacters => "6.4.4.4p10",
            Part::VariadicDefinition => "6.9.1p8",
            Part::VariableLength => "6.7.6.2p4",
            Part::FlexibleMember => "6.7.2.1p18",
            Part::CompoundLiteral => "6.5.2.5",
            Part::StaticLength => "6.7.6.3p7",
            Part::OldDefinition => "6.9.1p6",
            Part::ArrayOfValue => "6.2.4p8",
            Part::FunctionConversion => "6.3.2.3p6, J.5.7",
            Part::PartTwice => "6.7.9p19",
            Part::StaticAddress => "6.6p10",
            Part::LargeText => "5.2.4.1",
            Part::Word
            | Part::BinaryConstant
            | Part::StatementExpression
            | Part::LabelAddress
            | Part::Range
            | Part::ShortConditional => "4p6",
        }
    }

    /// Whether it is none of C11.
    pub fn is_extension(self) -> bool {
        matches!(
            self,
            Part::Word
                | Part::BinaryConstant
                | Part::StatementExpression
                | Part::LabelAddress
                | Part::Range
                | Part::ShortConditional
        )
    }
}
