// The headers of the standard library (7), by the names that they declare.

fn is_one_of(name: &[u8], words: &[&str]) -> bool {
    words.iter().any(|word| name == word.as_bytes())
}

fn is_number_type(name: &[u8]) -> bool {
    is_one_of(
        name,
        &[
            "int8_t",
            "int16_t",
            "int32_t",
            "int64_t",
            "uint8_t",
            "uint16_t",
            "uint32_t",
            "uint64_t",
            "intptr_t",
            "uintptr_t",
            "intmax_t",
            "uintmax_t",
        ],
    )
}

fn is_of_memory(name: &[u8]) -> bool {
    is_one_of(
        name,
        &[
            "memcpy", "memmove", "memset", "memcmp", "memchr", "strlen", "strcpy", "strncpy",
            "strcat", "strncat", "strcmp", "strncmp", "strchr", "strrchr", "strstr", "strtok",
        ],
    )
}

fn is_of_streams(name: &[u8]) -> bool {
    is_one_of(
        name,
        &[
            "printf", "fprintf", "sprintf", "snprintf", "puts", "putchar", "fputs", "fputc",
            "getchar", "fgets", "fopen", "fclose", "stdin", "stdout", "stderr", "FILE", "EOF",
        ],
    )
}

fn is_of_utilities(name: &[u8]) -> bool {
    is_one_of(
        name,
        &[
            "malloc",
            "calloc",
            "realloc",
            "free",
            "exit",
            "abort",
            "qsort",
            "bsearch",
            "rand",
            "srand",
            "atoi",
            "atol",
            "strtol",
            "strtoul",
            "abs",
            "labs",
            "getenv",
            "EXIT_SUCCESS",
            "EXIT_FAILURE",
        ],
    )
}

fn is_of_characters(name: &[u8]) -> bool {
    is_one_of(
        name,
        &[
            "isalpha", "isdigit", "isalnum", "isspace", "isupper", "islower", "ispunct", "isprint",
            "isxdigit", "toupper", "tolower",
        ],
    )
}

fn is_of_limits(name: &[u8]) -> bool {
    is_one_of(
        name,
        &[
            "INT_MAX",
            "INT_MIN",
            "UINT_MAX",
            "LONG_MAX",
            "LONG_MIN",
            "ULONG_MAX",
            "CHAR_BIT",
            "CHAR_MAX",
            "CHAR_MIN",
            "UCHAR_MAX",
            "SHRT_MAX",
            "LLONG_MAX",
        ],
    )
}

fn is_left_out(name: &[u8]) -> bool {
    is_one_of(
        name,
        &[
            "sqrt", "pow", "sin", "cos", "floor", "signal", "raise", "setjmp", "longjmp",
            "va_list", "va_start", "va_arg", "va_end", "scanf", "sscanf", "atexit",
        ],
    )
}

/// Where this name of the standard library is declared; none where it is no name that is used often.
pub fn header_of(name: &[u8]) -> Option<&'static str> {
    if is_number_type(name) {
        Some("It is in <stdint.h>.")
    } else if is_of_memory(name) {
        Some("It is in <string.h>.")
    } else if is_of_streams(name) {
        Some("It is in <stdio.h>.")
    } else if is_of_utilities(name) {
        Some("It is in <stdlib.h>.")
    } else if is_of_characters(name) {
        Some("It is in <ctype.h>.")
    } else if is_of_limits(name) {
        Some("It is in <limits.h>.")
    } else {
        header_of_other(name)
    }
}

fn header_of_other(name: &[u8]) -> Option<&'static str> {
    if is_one_of(name, &["size_t", "ptrdiff_t", "NULL", "offsetof"]) {
        Some("It is in <stddef.h>.")
    } else if is_one_of(name, &["bool", "true", "false"]) {
        Some("It is in <stdbool.h>.")
    } else if is_one_of(name, &["assert"]) {
        Some("It is in <assert.h>.")
    } else if is_one_of(name, &["time_t", "time", "clock", "clock_t"]) {
        Some("It is in <time.h>.")
    } else if is_one_of(name, &["errno"]) {
        Some("It is in <errno.h>.")
    } else if is_left_out(name) {
        Some("C's library has it, and this tool's headers leave it out (PROFILE.md).")
    } else {
        None
    }
}
