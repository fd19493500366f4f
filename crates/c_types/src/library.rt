// The library functions of the profile (7.21, 7.22, 7.24).

#[derive(Clone, Copy, Debug, PartialEq, Eq)]
pub enum LibFunc {
    Malloc,
    Calloc,
    Realloc,
    Free,
    Memcpy,
    Memmove,
    Memset,
    Memcmp,
    Strlen,
    Strcpy,
    Strcmp,
    Strchr,
    Getchar,
    Putchar,
    Puts,
    Printf,
    /// `printf` to the stream of a number, under a name of the headers: 1 is standard output and 2 standard error (own).
    Fprintf,
    Sprintf,
    Snprintf,
    Exit,
    Abort,
}
