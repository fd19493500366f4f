// Why a constraint or a rule of the profile forbids a text.

/// A constraint of ISO/IEC 9899:2011, or a rule of the profile, that a text breaks.
#[derive(Clone, Copy, Debug, PartialEq, Eq)]
pub enum Reason {
    /// 6.3.2.2p1.
    VoidValue,
    /// 6.3.2.1p2.
    IncompleteValue,
    /// 6.4.4p2.
    ConstantTooWide,
    /// 6.4.4.4p10.
    CharacterConstant,
    /// 6.4.5p1.
    StringLiteral,
    /// 6.5.1p2.
    UndeclaredName,
    /// 6.5.2.1p1.
    Subscript,
    /// 6.5.2.2p1.
    CalledType,
    /// 6.5.2.2p2.
    CallArguments,
    /// 6.5.2.3p1.
    MemberOfValue,
    /// 6.5.2.3p2.
    MemberOfPointer,
    /// own.
    ArrayOfValue,
    /// 6.5.2.4p1.
    PostfixStep,
    /// 6.5.3.1p1.
    PrefixStep,
    /// 6.5.3.2p1.
    Address,
    /// 6.5.3.2p2.
    Indirection,
    /// 6.5.3.3p1.
    UnaryOperand,
    /// 6.5.3.4p1.
    MeasuredType,
    /// 6.5.4p2.
    CastTypes,
    /// own.
    FunctionConversion,
    /// 6.5.5p2.
    Product,
    /// 6.5.6p2.
    Addition,
    /// 6.5.6p3.
    Subtraction,
    /// 6.5.7p2.
    Shift,
    /// 6.5.8p2.
    Relation,
    /// 6.5.9p2.
    Equality,
    /// 6.5.10p2.
    BitAnd,
    /// 6.5.11p2.
    BitXor,
    /// 6.5.12p2.
    BitOr,
    /// 6.5.13p2.
    LogicalAnd,
    /// 6.5.14p2.
    LogicalOr,
    /// 6.5.15p2.
    ConditionalTest,
    /// 6.5.15p3.
    ConditionalOperands,
    /// 6.5.16p2.
    NotModifiable,
    /// 6.5.16.1p1.
    AssignedValue,
    /// 6.5.16.2p1.
    CompoundSum,
    /// 6.5.16.2p2.
    CompoundOther,
    /// 6.6p3.
    ConstantOperator,
    /// 6.6p4.
    ConstantRange,
    /// 6.7p2.
    DeclaresNothing,
    /// 6.7p3.
    DeclaredTwice,
    /// 6.7p4.
    IncompatibleDeclarations,
    /// 6.2.7p2.
    IncompatibleScopes,
    /// 6.2.2p7.
    LinkageClash,
    /// 6.7p7.
    IncompleteObject,
    /// 6.7.1p2.
    StorageClasses,
    /// 6.7.1p7.
    LocalFunctionStorage,
    /// 6.7.2p2.
    TypeSpecifiers,
    /// own.
    LeftOutFloating,
    /// own.
    LeftOutQualifier,
    /// own.
    LeftOutSpecifier,
    /// 6.7.2.1p1.
    MemberSpecifiers,
    /// 6.7.2.1p2.
    UnnamedMember,
    /// 6.7.2.1p3.
    MemberType,
    /// 6.7.2.1p13.
    UnnamedMemberTwice,
    /// 6.7.2.2p2.
    EnumeratorValue,
    /// 6.7.2.2p3.
    NextEnumerator,
    /// 6.7.2.3p1.
    DefinedTwice,
    /// 6.7.2.3p2.
    TagKind,
    /// 6.7.2.3p3.
    EnumerationAlone,
    /// 6.7.3p2.
    Restrict,
    /// 6.7.3p9.
    QualifiedFunction,
    /// 6.7.4p2.
    FunctionSpecifier,
    /// 6.7.4p4.
    MainSpecifier,
    /// 6.7.6.2p1.
    ArrayLength,
    /// own.
    LeftOutVariableLength,
    /// 6.7.6.3p1.
    FunctionResult,
    /// 6.7.6.3p2.
    ParameterStorage,
    /// 6.7.6.3p4.
    ParameterType,
    /// 6.7.6.3p10.
    VoidParameter,
    /// 6.7.7p1.
    TypeName,
    /// 6.7.9p2.
    TooManyInitializers,
    /// 6.7.9p3.
    InitializedEntity,
    /// 6.7.9p4.
    StaticInitializer,
    /// own.
    LeftOutAddress,
    /// 6.7.9p5.
    ExternInitializer,
    /// 6.7.9p6.
    ElementDesignator,
    /// 6.7.9p7.
    MemberDesignator,
    /// 6.7.9p11.
    ScalarInitializer,
    /// 6.7.9p13.
    WholeInitializer,
    /// 6.7.9p14.
    TextInitializer,
    /// 6.7.9p16.
    ListInitializer,
    /// own.
    PartGivenTwice,
    /// 6.7.9p1.
    EmptyList,
    /// 6.7.10p2.
    AssertionFails,
    /// 6.7.10p3.
    AssertionConstant,
    /// 6.8.1p2.
    LabelPlace,
    /// 6.8.1p3.
    LabelTwice,
    /// 6.8.4.1p1.
    SelectionTest,
    /// 6.8.4.2p1.
    SwitchTest,
    /// 6.8.4.2p3.
    CaseLabels,
    /// 6.8.5p2.
    LoopTest,
    /// 6.8.5p3.
    LoopDeclaration,
    /// 6.8.6.1p1.
    GotoLabel,
    /// 6.8.6.2p1.
    ContinuePlace,
    /// 6.8.6.3p1.
    BreakPlace,
    /// 6.8.6.4p1.
    ReturnForm,
    /// 6.8.6.4p3.
    ReturnedValue,
    /// 6.9p2.
    ExternalStorage,
    /// 6.9p3.
    InternalDefinition,
    /// 6.9p5.
    ExternalDefinition,
    /// 6.9.1p2.
    DefinedByTypedef,
    /// 6.9.1p3.
    DefinedResult,
    /// 6.9.1p4.
    DefinitionStorage,
    /// 6.9.1p5.
    ParameterName,
    /// own.
    LeftOutVariadic,
    /// 6.9.2p2.
    IncompleteAtEnd,
    /// 6.9.2p3.
    IncompleteTentative,
    /// 5.1.2.2.1p1.
    MainType,
    /// 7.1.3p2.
    LibraryName,
    /// own.
    TypeTooLarge,
    /// own.
    TypeTooHigh,
    /// own.
    ListTooLong,
    /// own.
    Unlawful,
}

impl Reason {
    /// The paragraph that states it, or "own" where it is a rule of the profile.
    pub fn paragraph(self) -> &'static str {
        match self {
            Reason::VoidValue => "6.3.2.2p1",
            Reason::IncompleteValue => "6.3.2.1p2",
            Reason::ConstantTooWide => "6.4.4p2",
            Reason::CharacterConstant => "6.4.4.4p10",
            Reason::StringLiteral => "6.4.5p1",
            Reason::UndeclaredName => "6.5.1p2",
            Reason::Subscript => "6.5.2.1p1",
            Reason::CalledType => "6.5.2.2p1",
            Reason::CallArguments => "6.5.2.2p2",
            Reason::MemberOfValue => "6.5.2.3p1",
            Reason::MemberOfPointer => "6.5.2.3p2",
            Reason::PostfixStep => "6.5.2.4p1",
            Reason::PrefixStep => "6.5.3.1p1",
            Reason::Address => "6.5.3.2p1",
            Reason::Indirection => "6.5.3.2p2",
            Reason::UnaryOperand => "6.5.3.3p1",
            Reason::MeasuredType => "6.5.3.4p1",
            Reason::CastTypes => "6.5.4p2",
            Reason::Product => "6.5.5p2",
            Reason::Addition => "6.5.6p2",
            Reason::Subtraction => "6.5.6p3",
            Reason::Shift => "6.5.7p2",
            Reason::Relation => "6.5.8p2",
            Reason::Equality => "6.5.9p2",
            Reason::BitAnd => "6.5.10p2",
            Reason::BitXor => "6.5.11p2",
            Reason::BitOr => "6.5.12p2",
            Reason::LogicalAnd => "6.5.13p2",
            Reason::LogicalOr => "6.5.14p2",
            Reason::ConditionalTest => "6.5.15p2",
            Reason::ConditionalOperands => "6.5.15p3",
            Reason::NotModifiable => "6.5.16p2",
            Reason::AssignedValue => "6.5.16.1p1",
            Reason::CompoundSum => "6.5.16.2p1",
            Reason::CompoundOther => "6.5.16.2p2",
            Reason::ConstantOperator => "6.6p3",
            Reason::ConstantRange => "6.6p4",
            Reason::DeclaresNothing => "6.7p2",
            Reason::DeclaredTwice => "6.7p3",
            Reason::IncompatibleDeclarations => "6.7p4",
            Reason::IncompatibleScopes => "6.2.7p2",
            Reason::LinkageClash => "6.2.2p7",
            Reason::IncompleteObject => "6.7p7",
            Reason::StorageClasses => "6.7.1p2",
            Reason::LocalFunctionStorage => "6.7.1p7",
            Reason::TypeSpecifiers => "6.7.2p2",
            Reason::MemberSpecifiers => "6.7.2.1p1",
            Reason::UnnamedMember => "6.7.2.1p2",
            Reason::MemberType => "6.7.2.1p3",
            Reason::UnnamedMemberTwice => "6.7.2.1p13",
            Reason::EnumeratorValue => "6.7.2.2p2",
            Reason::NextEnumerator => "6.7.2.2p3",
            Reason::DefinedTwice => "6.7.2.3p1",
            Reason::TagKind => "6.7.2.3p2",
            Reason::EnumerationAlone => "6.7.2.3p3",
            Reason::Restrict => "6.7.3p2",
            Reason::QualifiedFunction => "6.7.3p9",
            Reason::FunctionSpecifier => "6.7.4p2",
            Reason::MainSpecifier => "6.7.4p4",
            Reason::ArrayLength => "6.7.6.2p1",
            Reason::FunctionResult => "6.7.6.3p1",
            Reason::ParameterStorage => "6.7.6.3p2",
            Reason::ParameterType => "6.7.6.3p4",
            Reason::VoidParameter => "6.7.6.3p10",
            Reason::TypeName => "6.7.7p1",
            Reason::TooManyInitializers => "6.7.9p2",
            Reason::InitializedEntity => "6.7.9p3",
            Reason::StaticInitializer => "6.7.9p4",
            Reason::ExternInitializer => "6.7.9p5",
            Reason::ElementDesignator => "6.7.9p6",
            Reason::MemberDesignator => "6.7.9p7",
            Reason::ScalarInitializer => "6.7.9p11",
            Reason::WholeInitializer => "6.7.9p13",
            Reason::TextInitializer => "6.7.9p14",
            Reason::ListInitializer => "6.7.9p16",
            Reason::EmptyList => "6.7.9p1",
            Reason::AssertionFails => "6.7.10p2",
            Reason::AssertionConstant => "6.7.10p3",
            Reason::LabelPlace => "6.8.1p2",
            Reason::LabelTwice => "6.8.1p3",
            Reason::SelectionTest => "6.8.4.1p1",
            Reason::SwitchTest => "6.8.4.2p1",
            Reason::CaseLabels => "6.8.4.2p3",
            Reason::LoopTest => "6.8.5p2",
            Reason::LoopDeclaration => "6.8.5p3",
            Reason::GotoLabel => "6.8.6.1p1",
            Reason::ContinuePlace => "6.8.6.2p1",
            Reason::BreakPlace => "6.8.6.3p1",
            Reason::ReturnForm => "6.8.6.4p1",
            Reason::ReturnedValue => "6.8.6.4p3",
            Reason::ExternalStorage => "6.9p2",
            Reason::InternalDefinition => "6.9p3",
            Reason::ExternalDefinition => "6.9p5",
            Reason::DefinedByTypedef => "6.9.1p2",
            Reason::DefinedResult => "6.9.1p3",
            Reason::DefinitionStorage => "6.9.1p4",
            Reason::ParameterName => "6.9.1p5",
            Reason::IncompleteAtEnd => "6.9.2p2",
            Reason::IncompleteTentative => "6.9.2p3",
            Reason::MainType => "5.1.2.2.1p1",
            Reason::LibraryName => "7.1.3p2",
            Reason::ArrayOfValue
            | Reason::FunctionConversion
            | Reason::LeftOutFloating
            | Reason::LeftOutQualifier
            | Reason::LeftOutSpecifier
            | Reason::LeftOutVariableLength
            | Reason::LeftOutAddress
            | Reason::PartGivenTwice
            | Reason::LeftOutVariadic
            | Reason::TypeTooLarge
            | Reason::TypeTooHigh
            | Reason::ListTooLong
            | Reason::Unlawful => "own",
        }
    }

    /// What is broken, in one sentence that names nothing of the text.
    pub fn sentence(self) -> &'static str {
        match self {
            Reason::VoidValue => "the value of a void expression is used",
            Reason::IncompleteValue => "an lvalue of incomplete type is used as a value",
            Reason::ConstantTooWide =>
                "an integer constant is greater than any type of its list holds",
            Reason::CharacterConstant =>
                "a character constant has not exactly one character that the profile reads",
            Reason::StringLiteral =>
                "a string literal has an escape sequence that the standard does not give",
            Reason::UndeclaredName =>
                "an identifier is used that no visible declaration makes an object, a function or an enumeration constant",
            Reason::Subscript =>
                "a subscript is not of a pointer to a complete object type and an integer",
            Reason::CalledType =>
                "what is called is no function that returns void or a complete object type",
            Reason::CallArguments =>
                "the arguments of a call do not agree in number or type with the parameters",
            Reason::MemberOfValue =>
                "the left operand of a dot is no structure or union that has such a member",
            Reason::MemberOfPointer =>
                "the left operand of an arrow is no pointer to a structure or union that has such a member",
            Reason::ArrayOfValue =>
                "the profile has no array member of a structure or union value that is no lvalue",
            Reason::PostfixStep =>
                "the operand of a postfix increment or decrement is no modifiable lvalue of integer or pointer type",
            Reason::PrefixStep =>
                "the operand of a prefix increment or decrement is no modifiable lvalue of integer or pointer type",
            Reason::Address =>
                "the operand of the address operator is neither a function nor an lvalue of an object that is not a register one",
            Reason::Indirection => "the operand of the indirection operator is no pointer",
            Reason::UnaryOperand =>
                "the operand of a unary operator is not of the type that the operator takes",
            Reason::MeasuredType =>
                "the size or alignment is asked of a function or of an incomplete type",
            Reason::CastTypes =>
                "a cast to a type other than void is not from one scalar type to another",
            Reason::FunctionConversion =>
                "the profile has no conversion between a function pointer and an integer or an object pointer",
            Reason::Product =>
                "the operands of a multiplicative operator do not have the types that it takes",
            Reason::Addition =>
                "the operands of an addition are neither two integers nor a pointer to a complete object type and an integer",
            Reason::Subtraction =>
                "the operands of a subtraction do not have the types that it takes",
            Reason::Shift => "an operand of a shift is no integer",
            Reason::Relation =>
                "the operands of a relational operator are neither two integers nor two pointers to compatible object types",
            Reason::Equality =>
                "the operands of an equality operator do not have the types that it takes",
            Reason::BitAnd => "an operand of a bitwise AND is no integer",
            Reason::BitXor => "an operand of a bitwise exclusive OR is no integer",
            Reason::BitOr => "an operand of a bitwise inclusive OR is no integer",
            Reason::LogicalAnd => "an operand of a logical AND is not of scalar type",
            Reason::LogicalOr => "an operand of a logical OR is not of scalar type",
            Reason::ConditionalTest => "the first operand of a conditional is not of scalar type",
            Reason::ConditionalOperands =>
                "the second and third operands of a conditional do not go together",
            Reason::NotModifiable => "the left operand of an assignment is no modifiable lvalue",
            Reason::AssignedValue =>
                "the right operand of an assignment may not be assigned to an object of the type of the left one",
            Reason::CompoundSum =>
                "the operands of an additive assignment do not have the types that it takes",
            Reason::CompoundOther =>
                "the operands of a compound assignment do not have the types that its operator takes",
            Reason::ConstantOperator =>
                "a constant expression has an assignment, an increment, a call or a comma that is evaluated",
            Reason::ConstantRange => "a constant expression has no value that its type holds",
            Reason::DeclaresNothing =>
                "a declaration declares neither a declarator nor a tag nor an enumeration constant",
            Reason::DeclaredTwice =>
                "an identifier without linkage is declared twice in one scope and name space",
            Reason::IncompatibleDeclarations =>
                "two declarations of one object or function in one scope do not specify compatible types",
            Reason::IncompatibleScopes =>
                "two declarations of one object or function do not specify compatible types",
            Reason::LinkageClash =>
                "an identifier is declared with internal and with external linkage",
            Reason::IncompleteObject =>
                "an object without linkage is declared with an incomplete type",
            Reason::StorageClasses => "a declaration has more than one storage class",
            Reason::LocalFunctionStorage =>
                "a function is declared in a block with a storage class other than extern",
            Reason::TypeSpecifiers => "the type specifiers of a declaration name no type",
            Reason::LeftOutFloating => "the profile has no floating types",
            Reason::LeftOutQualifier => "the profile has no volatile and no atomic types",
            Reason::LeftOutSpecifier => "the profile has no such specifier",
            Reason::MemberSpecifiers =>
                "a member is declared with a storage class or a function specifier",
            Reason::UnnamedMember =>
                "a member without a name is no structure or union without a tag",
            Reason::MemberType => "a member has an incomplete type or a function type",
            Reason::UnnamedMemberTwice =>
                "an unnamed structure or union has a member whose name the structure or union round it has already",
            Reason::EnumeratorValue =>
                "the value of an enumeration constant is no integer constant expression, or no int",
            Reason::NextEnumerator =>
                "the value after that of the enumeration constant before is no int",
            Reason::DefinedTwice =>
                "the content of a structure, union or enumeration is defined twice",
            Reason::TagKind =>
                "a tag is used with another keyword than the one that it was declared with",
            Reason::EnumerationAlone =>
                "an enumeration is named by its tag before its list is complete",
            Reason::Restrict => "restrict qualifies a type that is no pointer to an object type",
            Reason::QualifiedFunction => "a function type is qualified",
            Reason::FunctionSpecifier =>
                "a function specifier stands in a declaration of what is no function",
            Reason::MainSpecifier => "a function specifier stands in a declaration of main",
            Reason::ArrayLength =>
                "an array has an element type that is incomplete or a function, or a length that is not above zero",
            Reason::LeftOutVariableLength => "the profile has no variable length arrays",
            Reason::FunctionResult => "a function returns a function or an array",
            Reason::ParameterStorage => "a parameter has a storage class other than register",
            Reason::ParameterType => "a parameter of a function definition has an incomplete type",
            Reason::VoidParameter => "void is the type of a parameter and not the whole list",
            Reason::TypeName => "a type name has a storage class or a function specifier",
            Reason::TooManyInitializers =>
                "an initializer is for something that is not in the object",
            Reason::InitializedEntity =>
                "an initializer stands behind what is neither an array of unknown length nor an object of complete type",
            Reason::StaticInitializer =>
                "an initializer of an object with static storage is no constant expression",
            Reason::LeftOutAddress =>
                "the profile has no such address in an initializer of an object with static storage",
            Reason::ExternInitializer => "a declaration with linkage in a block has an initializer",
            Reason::ElementDesignator => "a designator names no element of an array",
            Reason::MemberDesignator => "a designator names no member of a structure or union",
            Reason::ScalarInitializer =>
                "the initializer of a scalar is not one expression whose value may be assigned to it",
            Reason::WholeInitializer =>
                "an expression of another type initializes a structure or union",
            Reason::TextInitializer =>
                "a string literal initializes an array that is not of characters",
            Reason::ListInitializer =>
                "an array is initialized by neither a list in braces nor a string literal",
            Reason::PartGivenTwice =>
                "the profile has no initializer list that gives a part twice or two members of one union",
            Reason::EmptyList => "an initializer list is empty",
            Reason::AssertionFails => "the expression of a static assertion is zero",
            Reason::AssertionConstant =>
                "the expression of a static assertion is no integer constant expression",
            Reason::LabelPlace => "a case or default label stands outside a switch statement",
            Reason::LabelTwice => "a label is defined twice in one function",
            Reason::SelectionTest =>
                "the controlling expression of an if statement is not of scalar type",
            Reason::SwitchTest => "the controlling expression of a switch statement is no integer",
            Reason::CaseLabels =>
                "a case label is no integer constant expression of its own, or a switch statement has two default labels",
            Reason::LoopTest => "the controlling expression of a loop is not of scalar type",
            Reason::LoopDeclaration =>
                "the declaration of a for statement declares something other than automatic objects",
            Reason::GotoLabel => "a goto statement names a label that its function does not have",
            Reason::ContinuePlace => "a continue statement stands outside a loop",
            Reason::BreakPlace => "a break statement stands outside a loop and a switch statement",
            Reason::ReturnForm =>
                "a return statement has a value in a function that returns void, or none in another one",
            Reason::ReturnedValue =>
                "the value of a return statement may not be assigned to an object of the type that the function returns",
            Reason::ExternalStorage =>
                "an external declaration has the storage class auto or register",
            Reason::InternalDefinition =>
                "an identifier with internal linkage is used without a definition, or has two",
            Reason::ExternalDefinition =>
                "an identifier with external linkage is used without a definition, or has two",
            Reason::DefinedByTypedef =>
                "the declarator of a function definition does not say that it is a function",
            Reason::DefinedResult =>
                "a function definition returns neither void nor a complete object type",
            Reason::DefinitionStorage =>
                "a function definition has a storage class other than extern and static",
            Reason::ParameterName => "a parameter of a function definition has no name",
            Reason::LeftOutVariadic =>
                "the profile has no definition of a function with a variable number of arguments",
            Reason::IncompleteAtEnd =>
                "an object is defined whose type is incomplete at the end of the unit",
            Reason::IncompleteTentative =>
                "a tentative definition with internal linkage has an incomplete type",
            Reason::MainType => "there is no definition of main with one of its types",
            Reason::LibraryName =>
                "a function of the library is defined, or declared with another type than its own",
            Reason::TypeTooLarge => "the profile has no type of more bytes than its limit",
            Reason::TypeTooHigh =>
                "the profile has no type that is higher or has more parts than its limits",
            Reason::ListTooLong =>
                "the profile has no initializer list of more parts than its limit",
            Reason::Unlawful => "the program is not one that the profile runs",
        }
    }
}
