// Declaration specifiers that are keywords (6.7.1 to 6.7.4).
ghost use Rattle.std.specs.Prelude.{◌≡◌, List, false, is_some};
ghost use Rattle.std.specs.Option.{option_map};
ghost use Rattle.c_types.specs.Types.{int, type_of};
ghost use Rattle.c_lex.specs.declared.token.Word.{Word};
ghost use Rattle.typing_words.specs.Words.{role, is_no_word, said, type_named, type_table, pointer_by};
ghost use Rattle.type_declarators.specs.Keywords.{added, all_added, with_type, is_type_role, stored, is_refused, none_held, Says, AreCounted, left_out};
ghost use Rattle.type_declarators.specs.Keywords.{are_same, named_by, character_rows, short_rows, int_rows, long_rows, long_long_rows, integer_rows, kind_rows};
ghost use Rattle.type_declarators.specs.Keywords.{truth_rows, pointer_from, part_of};

use c_lex::Word;
use c_types::{IntKind, Ty};
use type_reasons::Reason;

/// The storage class that a declaration names (6.7.1).
#[derive(Clone, Copy, Debug, PartialEq, Eq)]
pub enum Storage {
    None,
    Typedef,
    Extern,
    Static,
    Auto,
    Register,
}

/// What the keywords of a declaration say.
#[derive(Clone, Copy)]
pub struct Words {
    pub storage: Storage,
    pub constant: bool,
    pub restricted: bool,
    /// `inline` or `_Noreturn`.
    pub function: bool,
    /// How often a storage class stands among them.
    pub storages: u8,
    /// The rule of the profile that leaves one of them out.
    pub unknown: Option<Reason>,
    pub types: Types,
}

/// How often each type specifier stands among them (6.7.2p2), as far as a byte counts.
#[derive(Clone, Copy, PartialEq, Eq)]
pub struct Types {
    pub void: u8,
    pub boolean: u8,
    pub character: u8,
    pub short: u8,
    pub int: u8,
    pub long: u8,
    pub signed: u8,
    pub unsigned: u8,
}

const NO_TYPES: Types = Types {
    void: 0,
    boolean: 0,
    character: 0,
    short: 0,
    int: 0,
    long: 0,
    signed: 0,
    unsigned: 0,
};

const VOID: Types = Types {
    void: 1,
    boolean: 0,
    character: 0,
    short: 0,
    int: 0,
    long: 0,
    signed: 0,
    unsigned: 0,
};

const BOOLEAN: Types = Types {
    void: 0,
    boolean: 1,
    character: 0,
    short: 0,
    int: 0,
    long: 0,
    signed: 0,
    unsigned: 0,
};

impl Types {
    // Counts the keyword, where it is a type specifier.
    fn add(&mut self, word: Word) -> bool
        ensures counted { self.new ≡ with_type word self.old }
        ensures value { result ≡ is_type_role (role word) }
    {
        match word {
            Word::Void => self.void = self.void.saturating_add(1),
            Word::Boolean => self.boolean = self.boolean.saturating_add(1),
            Word::Char => self.character = self.character.saturating_add(1),
            Word::Short => self.short = self.short.saturating_add(1),
            Word::Int => self.int = self.int.saturating_add(1),
            Word::Long => self.long = self.long.saturating_add(1),
            Word::Signed => self.signed = self.signed.saturating_add(1),
            Word::Unsigned => self.unsigned = self.unsigned.saturating_add(1),
            _ => return false,
        }
        true
    }

    // Whether they stand there as often.
    fn is_same(self, other: Types) -> bool
        ensures { result ≡ are_same self other }
    {
        self == other
    }

    // Whether just these stand among them, each as often, and neither `void` nor `_Bool`.
    fn is(self, character: u8, short: u8, int: u8, long: u8, signed: u8, unsigned: u8) -> bool
        ensures { result
            ≡ are_same self (record {
              void = 0;
              boolean = 0;
              character = character;
              short = short;
              int = int;
              long = long;
              signed = signed;
              unsigned = unsigned;
            }) }
    {
        self.is_same(Types {
            void: 0,
            boolean: 0,
            character,
            short,
            int,
            long,
            signed,
            unsigned,
        })
    }

    // Of `char`.
    fn characters(self) -> Option<IntKind>
        ensures { option_map int result ≡ named_by self character_rows }
    {
        if self.is(1, 0, 0, 0, 0, 0) {
            Some(IntKind::Char)
        } else if self.is(1, 0, 0, 0, 1, 0) {
            Some(IntKind::SChar)
        } else if self.is(1, 0, 0, 0, 0, 1) {
            Some(IntKind::UChar)
        } else {
            None
        }
    }

    // Of one `short`.
    fn shorts(self) -> Option<IntKind>
        ensures { option_map int result ≡ named_by self short_rows }
    {
        if self.is(0, 1, 0, 0, 0, 0) {
            Some(IntKind::Short)
        } else if self.is(0, 1, 0, 0, 1, 0) {
            Some(IntKind::Short)
        } else if self.is(0, 1, 1, 0, 0, 0) {
            Some(IntKind::Short)
        } else if self.is(0, 1, 1, 0, 1, 0) {
            Some(IntKind::Short)
        } else if self.is(0, 1, 0, 0, 0, 1) {
            Some(IntKind::UShort)
        } else if self.is(0, 1, 1, 0, 0, 1) {
            Some(IntKind::UShort)
        } else {
            None
        }
    }

    // Of no length specifier.
    fn ints(self) -> Option<IntKind>
        ensures { option_map int result ≡ named_by self int_rows }
    {
        if self.is(0, 0, 1, 0, 0, 0) {
            Some(IntKind::Int)
        } else if self.is(0, 0, 0, 0, 1, 0) {
            Some(IntKind::Int)
        } else if self.is(0, 0, 1, 0, 1, 0) {
            Some(IntKind::Int)
        } else if self.is(0, 0, 0, 0, 0, 1) {
            Some(IntKind::UInt)
        } else if self.is(0, 0, 1, 0, 0, 1) {
            Some(IntKind::UInt)
        } else {
            None
        }
    }

    // Of one `long`.
    fn longs(self) -> Option<IntKind>
        ensures { option_map int result ≡ named_by self long_rows }
    {
        if self.is(0, 0, 0, 1, 0, 0) {
            Some(IntKind::Long)
        } else if self.is(0, 0, 0, 1, 1, 0) {
            Some(IntKind::Long)
        } else if self.is(0, 0, 1, 1, 0, 0) {
            Some(IntKind::Long)
        } else if self.is(0, 0, 1, 1, 1, 0) {
            Some(IntKind::Long)
        } else if self.is(0, 0, 0, 1, 0, 1) {
            Some(IntKind::ULong)
        } else if self.is(0, 0, 1, 1, 0, 1) {
            Some(IntKind::ULong)
        } else {
            None
        }
    }

    // Of two `long`.
    fn long_longs(self) -> Option<IntKind>
        ensures { option_map int result ≡ named_by self long_long_rows }
    {
        if self.is(0, 0, 0, 2, 0, 0) {
            Some(IntKind::LLong)
        } else if self.is(0, 0, 0, 2, 1, 0) {
            Some(IntKind::LLong)
        } else if self.is(0, 0, 1, 2, 0, 0) {
            Some(IntKind::LLong)
        } else if self.is(0, 0, 1, 2, 1, 0) {
            Some(IntKind::LLong)
        } else if self.is(0, 0, 0, 2, 0, 1) {
            Some(IntKind::ULLong)
        } else if self.is(0, 0, 1, 2, 0, 1) {
            Some(IntKind::ULLong)
        } else {
            None
        }
    }

    // Of the integers but characters and `_Bool`.
    fn integers(self) -> Option<IntKind>
        ensures { option_map int result ≡ named_by self integer_rows }
    {
        match self.shorts() {
            Some(kind) => Some(kind),
            None => match self.ints() {
                Some(kind) => Some(kind),
                None => match self.longs() {
                    Some(kind) => Some(kind),
                    None => self.long_longs(),
                },
            },
        }
    }

    // Of those with characters.
    fn kinds(self) -> Option<IntKind>
        ensures { option_map int result ≡ named_by self kind_rows }
    {
        match self.characters() {
            Some(kind) => Some(kind),
            None => self.integers(),
        }
    }

    // The type that they name (6.7.2p2).
    fn named(self) -> Option<Ty>
        ensures { option_map type_of result ≡ named_by self type_table }
    {
        if self.is_same(VOID) {
            return Some(Ty::Void);
        }
        match self.kinds() {
            Some(kind) => Some(Ty::Int(kind)),
            None => self.truth(),
        }
    }

    // Of `_Bool`.
    fn truth(self) -> Option<Ty>
        ensures { option_map type_of result ≡ named_by self truth_rows }
    {
        if self.is_same(BOOLEAN) {
            Some(Ty::Int(IntKind::Bool))
        } else {
            None
        }
    }
}

// The rule of the profile that leaves the keyword out.
fn left_out(word: Word) -> Reason
    ensures { result ≡ left_out word }
{
    match word {
        Word::Float | Word::Double | Word::Complex | Word::Imaginary => Reason::LeftOutFloating,
        Word::Volatile | Word::Atomic => Reason::LeftOutQualifier,
        _ => Reason::LeftOutSpecifier,
    }
}

impl Words {
    // Notes a storage class.
    fn store(&mut self, storage: Storage)
        ensures { self.new ≡ stored storage self.old }
    {
        self.storage = storage;
        self.storages = self.storages.saturating_add(1);
    }

    // Notes the keyword.
    fn add(&mut self, word: Word)
        ensures { self.new ≡ added word self.old }
    {
        match word {
            Word::Typedef => self.store(Storage::Typedef),
            Word::Extern => self.store(Storage::Extern),
            Word::Static => self.store(Storage::Static),
            Word::Auto => self.store(Storage::Auto),
            Word::Register => self.store(Storage::Register),
            Word::Const => self.constant = true,
            Word::Restrict => self.restricted = true,
            Word::Inline | Word::Noreturn => self.function = true,
            word => {
                if !self.types.add(word) {
                    self.unknown = Some(left_out(word));
                }
            }
        }
    }

    /// Why no declaration may have them: a keyword that the profile leaves out, or more than one storage class (6.7.1p2).
    pub fn refusal(&self) -> Option<Reason>
        ensures { is_some result ≡ is_refused self.now }
    {
        match self.unknown {
            Some(reason) => Some(reason),
            None if self.storages > 1 => Some(Reason::StorageClasses),
            None => None,
        }
    }

    /// Whether no type specifier stands among them.
    pub fn name_no_type(&self) -> bool
        ensures { (words : List Word) → AreCounted self.now.types words → result ≡ is_no_word words }
    {
        self.types.is_same(NO_TYPES)
    }

    /// The type that they name (6.7.2p2).
    pub fn named_type(&self) -> Option<Ty>
        ensures { (words : List Word) → AreCounted self.now.types words → option_map type_of result ≡ type_named words type_table }
    {
        self.types.named()
    }
}

// The keywords one after the other.
fn all_words(words: &[Word]) -> Words
    ensures { result ≡ all_added none_held words.now }
{
    let mut all = Words {
        storage: Storage::None,
        constant: false,
        restricted: false,
        function: false,
        storages: 0,
        unknown: None,
        types: NO_TYPES,
    };
    for word in words {
        all.add(*word);
    }
    all
}

/// What the keywords say together.
pub fn read_words(words: &[Word]) -> Words
    ensures { Says result (said words.now) }
{
    all_words(words)
}

// Whether they hold `const` and `restrict`, and nothing else.
fn pointer_qualifiers(words: &[Word]) -> Option<(bool, bool)>
    ensures { part_of result ≡ pointer_from false false words.now }
{
    let mut constant = false;
    let mut restricted = false;
    for word in words {
        match word {
            Word::Const => constant = true,
            Word::Restrict => restricted = true,
            _ => return None,
        }
    }
    Some((constant, restricted))
}

/// Whether the qualifiers of a pointer make it const, and whether they hold `restrict` (6.7.3). Any other is left out of the
/// profile.
pub fn pointer_words(words: &[Word]) -> Option<(bool, bool)>
    ensures { part_of result ≡ pointer_by (said words.now) }
{
    pointer_qualifiers(words)
}
