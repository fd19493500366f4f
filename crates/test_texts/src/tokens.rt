// Texts with their tokens, each as its kind, its span and its line, or with the fault. The expected values
// follow ISO/IEC 9899:2011, 6.4, by hand.
use c_lex::{Token, Tokens, lex};
use std::alloc::{AllocError, Global};

// A text, and what is to be said of it.
type Row = (&'static str, &'static str);

// The most bytes of a text.
const MOST: usize = 1_048_576;

// Identifiers, keywords and punctuators (6.4.1, 6.4.2, 6.4.6).
const WORDS_AND_PUNCTUATORS: &[Row] = &[
    ("", ""),
    (
        "x+++++y",
        "Name 0 1 1;Punct(PlusPlus) 1 3 1;Punct(PlusPlus) 3 5 1;Punct(Plus) 5 6 1;Name 6 7 1;",
    ),
    (
        "a<:1:>",
        "Name 0 1 1;Punct(OpenBracket) 1 3 1;Number 3 4 1;Punct(CloseBracket) 4 6 1;",
    ),
    ("<%%>", "Punct(OpenBrace) 0 2 1;Punct(CloseBrace) 2 4 1;"),
    ("%:", "Punct(Percent) 0 1 1;Punct(Colon) 1 2 1;"),
    (
        "a<<=b>>=c...",
        "Name 0 1 1;Punct(ShiftLeftEqual) 1 4 1;Name 4 5 1;Punct(ShiftRightEqual) 5 8 1;Name 8 9 1;Punct(Ellipsis) 9 12 1;",
    ),
    ("....", "Punct(Ellipsis) 0 3 1;Punct(Dot) 3 4 1;"),
    ("..", "Punct(Dot) 0 1 1;Punct(Dot) 1 2 1;"),
    (
        "p->x--->y",
        "Name 0 1 1;Punct(Arrow) 1 3 1;Name 3 4 1;Punct(MinusMinus) 4 6 1;Punct(Arrow) 6 8 1;Name 8 9 1;",
    ),
    (
        "&&&=||!=~?:;,()[]{}^^=",
        "Punct(AndAnd) 0 2 1;Punct(AmpersandEqual) 2 4 1;Punct(OrOr) 4 6 1;Punct(BangEqual) 6 8 1;Punct(Tilde) 8 9 1;Punct(Question) 9 10 1;Punct(Colon) 10 11 1;Punct(Semicolon) 11 12 1;Punct(Comma) 12 13 1;Punct(OpenParen) 13 14 1;Punct(CloseParen) 14 15 1;Punct(OpenBracket) 15 16 1;Punct(CloseBracket) 16 17 1;Punct(OpenBrace) 17 18 1;Punct(CloseBrace) 18 19 1;Punct(Caret) 19 20 1;Punct(CaretEqual) 20 22 1;",
    ),
    (
        "int integer _Bool _Static_assert _ volatile2 typedef",
        "Keyword(Int) 0 3 1;Name 4 11 1;Keyword(Boolean) 12 17 1;Keyword(StaticAssert) 18 32 1;Name 33 34 1;Name 35 44 1;Keyword(Typedef) 45 52 1;",
    ),
    ("L u8 u", "Name 0 1 1;Name 2 4 1;Name 5 6 1;"),
    (
        "a/b/=c",
        "Name 0 1 1;Punct(Slash) 1 2 1;Name 2 3 1;Punct(SlashEqual) 3 5 1;Name 5 6 1;",
    ),
    ("a$", "Stray(1)"),
    ("@", "Stray(0)"),
    ("\\", "Stray(0)"),
    (
        "auto break case char const continue default do double else enum extern float for goto if inline int long register restrict return short signed sizeof static struct switch typedef union unsigned void volatile while _Alignas _Alignof _Atomic _Bool _Complex _Generic _Imaginary _Noreturn _Static_assert _Thread_local",
        "Keyword(Auto) 0 4 1;Keyword(Break) 5 10 1;Keyword(Case) 11 15 1;Keyword(Char) 16 20 1;Keyword(Const) 21 26 1;Keyword(Continue) 27 35 1;Keyword(Default) 36 43 1;Keyword(Do) 44 46 1;Keyword(Double) 47 53 1;Keyword(Else) 54 58 1;Keyword(Enum) 59 63 1;Keyword(Extern) 64 70 1;Keyword(Float) 71 76 1;Keyword(For) 77 80 1;Keyword(Goto) 81 85 1;Keyword(If) 86 88 1;Keyword(Inline) 89 95 1;Keyword(Int) 96 99 1;Keyword(Long) 100 104 1;Keyword(Register) 105 113 1;Keyword(Restrict) 114 122 1;Keyword(Return) 123 129 1;Keyword(Short) 130 135 1;Keyword(Signed) 136 142 1;Keyword(Sizeof) 143 149 1;Keyword(Static) 150 156 1;Keyword(Struct) 157 163 1;Keyword(Switch) 164 170 1;Keyword(Typedef) 171 178 1;Keyword(Union) 179 184 1;Keyword(Unsigned) 185 193 1;Keyword(Void) 194 198 1;Keyword(Volatile) 199 207 1;Keyword(While) 208 213 1;Keyword(Alignas) 214 222 1;Keyword(Alignof) 223 231 1;Keyword(Atomic) 232 239 1;Keyword(Boolean) 240 245 1;Keyword(Complex) 246 254 1;Keyword(Generic) 255 263 1;Keyword(Imaginary) 264 274 1;Keyword(Noreturn) 275 284 1;Keyword(StaticAssert) 285 299 1;Keyword(ThreadLocal) 300 313 1;",
    ),
    (
        "[ ] ( ) { } . -> ++ -- & * + - ~ ! / % << >> < > <= >= == != ^ | && || ? : ; ... = *= /= %= += -= <<= >>= &= ^= |= , <: :> <% %>",
        "Punct(OpenBracket) 0 1 1;Punct(CloseBracket) 2 3 1;Punct(OpenParen) 4 5 1;Punct(CloseParen) 6 7 1;Punct(OpenBrace) 8 9 1;Punct(CloseBrace) 10 11 1;Punct(Dot) 12 13 1;Punct(Arrow) 14 16 1;Punct(PlusPlus) 17 19 1;Punct(MinusMinus) 20 22 1;Punct(Ampersand) 23 24 1;Punct(Star) 25 26 1;Punct(Plus) 27 28 1;Punct(Minus) 29 30 1;Punct(Tilde) 31 32 1;Punct(Bang) 33 34 1;Punct(Slash) 35 36 1;Punct(Percent) 37 38 1;Punct(ShiftLeft) 39 41 1;Punct(ShiftRight) 42 44 1;Punct(Less) 45 46 1;Punct(Greater) 47 48 1;Punct(LessEqual) 49 51 1;Punct(GreaterEqual) 52 54 1;Punct(EqualEqual) 55 57 1;Punct(BangEqual) 58 60 1;Punct(Caret) 61 62 1;Punct(Bar) 63 64 1;Punct(AndAnd) 65 67 1;Punct(OrOr) 68 70 1;Punct(Question) 71 72 1;Punct(Colon) 73 74 1;Punct(Semicolon) 75 76 1;Punct(Ellipsis) 77 80 1;Punct(Equal) 81 82 1;Punct(StarEqual) 83 85 1;Punct(SlashEqual) 86 88 1;Punct(PercentEqual) 89 91 1;Punct(PlusEqual) 92 94 1;Punct(MinusEqual) 95 97 1;Punct(ShiftLeftEqual) 98 101 1;Punct(ShiftRightEqual) 102 105 1;Punct(AmpersandEqual) 106 108 1;Punct(CaretEqual) 109 111 1;Punct(BarEqual) 112 114 1;Punct(Comma) 115 116 1;Punct(OpenBracket) 117 119 1;Punct(CloseBracket) 120 122 1;Punct(OpenBrace) 123 125 1;Punct(CloseBrace) 126 128 1;",
    ),
    ("_x1 Int whilee", "Name 0 3 1;Name 4 7 1;Name 8 14 1;"),
    (
        "a-->b",
        "Name 0 1 1;Punct(MinusMinus) 1 3 1;Punct(Greater) 3 4 1;Name 4 5 1;",
    ),
    (
        "a>>>=b",
        "Name 0 1 1;Punct(ShiftRight) 1 3 1;Punct(GreaterEqual) 3 5 1;Name 5 6 1;",
    ),
    ("\u{ff}", "Stray(0)"),
    ("int x; \u{e9}", "Stray(7)"),
];

// Numbers (6.4.8), of which only integer constants (6.4.4.1) are read.
const NUMBERS: &[Row] = &[
    (
        "0 00 07 0x1F 123u 5UL 6llu 7LLU 8lu 9Ull",
        "Number 0 1 1;Number 2 4 1;Number 5 7 1;Number 8 12 1;Number 13 17 1;Number 18 21 1;Number 22 26 1;Number 27 31 1;Number 32 35 1;Number 36 40 1;",
    ),
    ("0x", "BadNumber(0)"),
    ("x 1e5", "BadNumber(2)"),
    ("08", "BadNumber(0)"),
    ("1.5", "BadNumber(0)"),
    (" .5", "BadNumber(1)"),
    ("5lL", "BadNumber(0)"),
    ("1e+5", "BadNumber(0)"),
    ("0xE+1", "BadNumber(0)"),
    ("1_", "BadNumber(0)"),
    ("1+1", "Number 0 1 1;Punct(Plus) 1 2 1;Number 2 3 1;"),
    ("0xF+1", "Number 0 3 1;Punct(Plus) 3 4 1;Number 4 5 1;"),
    (
        "1 1u 1U 1l 1L 1ll 1LL 1ul 1uL 1Ul 1UL 1ull 1uLL 1Ull 1ULL 1lu 1lU 1Lu 1LU 1llu 1llU 1LLu 1LLU",
        "Number 0 1 1;Number 2 4 1;Number 5 7 1;Number 8 10 1;Number 11 13 1;Number 14 17 1;Number 18 21 1;Number 22 25 1;Number 26 29 1;Number 30 33 1;Number 34 37 1;Number 38 42 1;Number 43 47 1;Number 48 52 1;Number 53 57 1;Number 58 61 1;Number 62 65 1;Number 66 69 1;Number 70 73 1;Number 74 78 1;Number 79 83 1;Number 84 88 1;Number 89 93 1;",
    ),
    (
        "0 0u 0U 0l 0L 0ll 0LL 0ul 0uL 0Ul 0UL 0ull 0uLL 0Ull 0ULL 0lu 0lU 0Lu 0LU 0llu 0llU 0LLu 0LLU",
        "Number 0 1 1;Number 2 4 1;Number 5 7 1;Number 8 10 1;Number 11 13 1;Number 14 17 1;Number 18 21 1;Number 22 25 1;Number 26 29 1;Number 30 33 1;Number 34 37 1;Number 38 42 1;Number 43 47 1;Number 48 52 1;Number 53 57 1;Number 58 61 1;Number 62 65 1;Number 66 69 1;Number 70 73 1;Number 74 78 1;Number 79 83 1;Number 84 88 1;Number 89 93 1;",
    ),
    (
        "0x1F 0x1Fu 0x1FU 0x1Fl 0x1FL 0x1Fll 0x1FLL 0x1Ful 0x1FuL 0x1FUl 0x1FUL 0x1Full 0x1FuLL 0x1FUll 0x1FULL 0x1Flu 0x1FlU 0x1FLu 0x1FLU 0x1Fllu 0x1FllU 0x1FLLu 0x1FLLU",
        "Number 0 4 1;Number 5 10 1;Number 11 16 1;Number 17 22 1;Number 23 28 1;Number 29 35 1;Number 36 42 1;Number 43 49 1;Number 50 56 1;Number 57 63 1;Number 64 70 1;Number 71 78 1;Number 79 86 1;Number 87 94 1;Number 95 102 1;Number 103 109 1;Number 110 116 1;Number 117 123 1;Number 124 130 1;Number 131 138 1;Number 139 146 1;Number 147 154 1;Number 155 162 1;",
    ),
    (
        "0X0fUL 000 0777ll",
        "Number 0 6 1;Number 7 10 1;Number 11 17 1;",
    ),
    ("1..2", "BadNumber(0)"),
    ("..5", "BadNumber(1)"),
    ("0b1", "BadNumber(0)"),
];

// Character constants and string literals (6.4.4.4, 6.4.5).
const LITERALS: &[Row] = &[
    (
        "'a' '\\'' '\\x41' ''",
        "CharLit 0 3 1;CharLit 4 8 1;CharLit 9 15 1;CharLit 16 18 1;",
    ),
    (
        "\"a\\\"b\" \"//\" \"'\"",
        "StringLit 0 6 1;StringLit 7 11 1;StringLit 12 15 1;",
    ),
    ("a \"b", "OpenLiteral(2)"),
    ("'\n'", "OpenLiteral(0)"),
    ("\"\\\n\"", "OpenLiteral(0)"),
    ("L'a'", "Stray(0)"),
    ("x = u8\"a\"", "Stray(4)"),
    ("u'a'", "Stray(0)"),
    ("'ab", "OpenLiteral(0)"),
    ("'\\400'", "CharLit 0 6 1;"),
    ("int main(void){return \"ab", "OpenLiteral(22)"),
];

// Comments (6.4.9), line markers, pragmas and definitions of macros (6.10.4, 6.10.6, 6.10.3).
const LINES: &[Row] = &[
    (" \t\x0b\x0c\r\n", ""),
    ("a/*\n*/b//c\nd", "Name 0 1 1;Name 6 7 2;Name 11 12 3;"),
    ("a//", "Name 0 1 1;"),
    ("a/*/", "OpenLiteral(1)"),
    ("/**/a", "Name 4 5 1;"),
    ("# 7 \"f.c\" 1 3\na\nb", "Name 14 15 7;Name 16 17 8;"),
    (" #line 2147483647\na", "Name 18 19 2147483647;"),
    ("#line 2147483648\na", "Stray(0)"),
    ("# 1 2\n", "Stray(0)"),
    ("#\n", "Stray(0)"),
    ("a # 1\n", "Stray(2)"),
    ("/**/# 1\n", "Stray(4)"),
    ("#line1\n", "Stray(0)"),
    ("# 1 \"a\n", "Stray(0)"),
    ("#define A", ""),
    ("#define zz /*\nzz", "Name 14 16 2;"),
    ("\t# undef zz\nzz", "Name 12 14 2;"),
    ("#defined A", "Stray(0)"),
    ("a #define A", "Stray(2)"),
    ("#include <a.h>", "Stray(0)"),
    ("#pragma pack(1) /*\nzz", "Name 19 21 2;"),
    ("x\n#3\"f\"4\ny", "Name 0 1 1;Name 9 10 3;"),
    ("\t# 3\n\n\nx", "Name 7 8 5;"),
    ("a /* b */ c // d", "Name 0 1 1;Name 10 11 1;"),
    ("a\n# 1 \"f\" 2 x\n", "Stray(2)"),
    ("x/*", "OpenLiteral(1)"),
    ("/*", "OpenLiteral(0)"),
];

fn token_told(alloc: Global, token: Token) -> Result<String, AllocError> {
    let kind = token.kind;
    let start = token.start;
    let end = token.end;
    let line = token.line;
    format!(in alloc; "{kind:?} {start} {end} {line};")
}

fn tokens_told(alloc: Global, tokens: &Tokens<'_>) -> Result<String, AllocError> {
    let mut told = String::new(alloc);
    for at in 0..tokens.len() {
        if let Some(token) = tokens.get(at) {
            told.push_str(&token_told(alloc, token)?)?;
        }
    }
    Ok(told)
}

fn told(alloc: Global, text: &str) -> Result<String, AllocError> {
    let source = text.as_bytes();
    if source.len() > MOST {
        return Err(AllocError);
    }
    match lex(alloc, source) {
        Ok(tokens) => tokens_told(alloc, &tokens),
        Err(fault) => format!(in alloc; "{fault:?}"),
    }
}

// The first row of whose text something else is said: its text, and what is said.
fn first_wrong(alloc: Global, rows: &[Row]) -> Result<String, AllocError> {
    for row in rows {
        let (text, want) = *row;
        let given = told(alloc, text)?;
        if given.as_str() != want {
            return format!(in alloc; "{text}: {given}");
        }
    }
    Ok(String::new(alloc))
}

#[test]
fn texts_have_their_tokens(rt: HostRuntime) -> Result<(), AllocError> {
    for rows in [WORDS_AND_PUNCTUATORS, NUMBERS, LITERALS, LINES] {
        let other = first_wrong(rt.alloc(), rows)?;
        assert_eq!(rt; other.as_str(), "");
    }
    Ok(())
}
