// What each command takes.
ghost use Rattle.std.specs.Prelude.{◌≡◌, ◌++◌, IfSome, IfNone, codes};
ghost use Rattle.command_help.specs.Commands.{Begins, IsCommand, IsLook};

fn about_audit() -> &'static str
    ensures { Begins (codes "cub audit") result.now }
{
    "cub audit FILE [--input F] [--steps N] [--tight] [--cert F] [ARGS]
  FILE        preprocessed C11, at most 1 MiB; - is standard input
  --input F   the program's standard input (without it: empty)
  --steps N   stop after N steps, 1 to 100000000 (without it: 1000000)
  --tight     objects without gaps between them
  --cert F    keep the certificate of the run in F
  ARGS        the program's arguments; after -- where one begins with -
Prints clean (0), undefined PARAGRAPH (1), order-dependent (2), out of steps N (3) or outside LIMIT (4).
A text that isn't read: lex (11), syntax (12), not typed (13), too long (14), too deep (15).
Example:  cub audit prog.c --input numbers -- -v
"
}

fn about_explain() -> &'static str
    ensures { Begins (codes "cub explain") result.now }
{
    "cub explain FILE [--input F] [--steps N] [--tight] [--json] [--text] [ARGS]
  FILE        preprocessed C11, at most 1 MiB; - is standard input
  --input F   the program's standard input (without it: empty)
  --steps N   stop after N steps, 1 to 100000000 (without it: 1000000)
  --tight     objects without gaps between them
  --json      one JSON object in place of the report and its explanation
  --text      show the lines of FILE, and not of the files that it was made from
  ARGS        the program's arguments; after -- where one begins with -
Prints the report of cub audit, a blank line and what it means, and ends with the status of cub audit.
Example:  cc -E -nostdinc -I headers prog.c | cub explain -
"
}

fn about_batch() -> &'static str
    ensures { Begins (codes "cub batch") result.now }
{
    "cub batch [--program P] [--list] [--steps N] [--tight] NAME..
  NAME        a program to audit, on an empty input
  --program P  audit P, and each NAME is an input for it
  --list      each NAME is a file with a name in each line; - is standard input
  --steps N   stop each run after N steps, 1 to 100000000 (without it: 1000000)
  --tight     objects without gaps between them
Prints a line for each run, NAME: and the first line of its report, and then how many had which verdict.
Ends with the highest status of the runs. A file that can't be read is a run with the status 20, and the rest go on.
Example:  find suite -name '*.i' | cub batch --list -
"
}

fn about_check() -> &'static str
    ensures { Begins (codes "cub check") result.now }
{
    "cub check FILE CERT [--input F] [ARGS]
  FILE        preprocessed C11, at most 1 MiB; - is standard input
  CERT        a certificate, as cub audit --cert keeps it
  --input F   the program's standard input in that audit (without it: empty)
  ARGS        the program's arguments in that audit
Prints yes (0), or the first part that doesn't hold: no map, no order or no claim (5).
Example:  cub audit prog.c --cert kept; cub check prog.c kept
"
}

fn about_self() -> &'static str
    ensures { Begins (codes "cub self") result.now }
{
    "cub self SEED N
  SEED        0 to 65536; the same seed gives the same program
  N           the program's lines, 1 to 20000
Prints the seed, the lines and the bytes of the program, and the report of its audit.
Example:  cub self 7 1000
"
}

fn about_help() -> &'static str
    ensures { Begins (codes "cub help") result.now }
{
    "cub help [COMMAND]
  COMMAND     audit, explain, batch, check, swap, static, story, errors, self, help or version (without it: all, a line each)
Example:  cub help audit
"
}

fn about_version() -> &'static str
    ensures { Begins (codes "cub version") result.now }
{
    "cub version
Prints the version of cub, and the line of the kit whose checker proved it.
Example:  cub version
"
}

fn about_errors() -> &'static str
    ensures { Begins (codes "cub errors") result.now }
{
    "cub errors FILE [--input F] [--steps N] [--tight] [ARGS]
  FILE        preprocessed C11, at most 1 MiB; - is standard input
  --input F   the program's standard input (without it: empty)
  --steps N   stop after N steps, 1 to 100000000 (without it: 1000000)
  --tight     objects without gaps between them
  ARGS        the program's arguments; after -- where one begins with -
Prints the report of cub audit, and ends with its status. What the program wrote to standard error goes to standard error.
Example:  cub errors prog.c --input numbers 2>written
"
}

fn about_static() -> &'static str
    ensures { Begins (codes "cub static") result.now }
{
    "cub static FILE
  FILE        preprocessed C11, at most 1 MiB; - is standard input
Runs nothing. Prints each full expression of which it isn't known that it never races, with two accesses in it, and how
many of either kind there are. All never race (0), or some aren't known to (8), which doesn't say that they do.
Example:  cub static prog.c
"
}

fn about_swap() -> &'static str
    ensures { Begins (codes "cub swap") result.now }
{
    "cub swap FILE [--input F] [--steps N] [--tight] [ARGS]
  FILE        preprocessed C11, at most 1 MiB; - is standard input
  --input F   the program's standard input (without it: empty)
  --steps N   stop each run after N steps, 1 to 100000000 (without it: 1000000)
  --tight     objects without gaps between them
  ARGS        the program's arguments; after -- where one begins with -
Where cub audit says order-dependent: goes on past the finding, once in the order of the audit and once with the second of
the two evaluations first, and prints both ends. differs (6) or same (7). Else the report of cub audit and its status.
Example:  cub swap prog.c --input numbers
"
}

fn about_story() -> &'static str
    ensures { Begins (codes "cub story") result.now }
{
    "cub story FILE NAME [--input F] [--steps N] [--tight] [ARGS]
  FILE        preprocessed C11, at most 1 MiB; - is standard input
  NAME        an object as reports name it, in one word: 'auto main 1 0', 'static 2', 'heap main 3 1'
  --input F   the program's standard input (without it: empty)
  --steps N   stop after N steps, 1 to 100000000 (without it: 1000000)
  --tight     objects without gaps between them
  ARGS        the program's arguments; after -- where one begins with -
Prints each step of the run up to the finding that touches the object, and how many they are; then the report of cub audit,
and ends with the status of cub audit.
Example:  cub story prog.c 'auto main 1 0'
"
}

// What a command takes that looks further at a program or its run.
fn about_look(command: &str) -> Option<&'static str>
    ensures begins { IfSome result (λ text. Begins (codes "cub " ++ command.now) text.now) }
    ensures command { IfSome result (λ _. IsLook command.now) }
    ensures none { IfNone result (¬ IsLook command.now) }
{
    if command == "errors" {
        Some(about_errors())
    } else if command == "static" {
        Some(about_static())
    } else if command == "swap" {
        Some(about_swap())
    } else if command == "story" {
        Some(about_story())
    } else {
        None
    }
}

/// What a command takes, with an example; none where no command has this name.
pub fn about(command: &str) -> Option<&'static str>
    ensures begins { IfSome result (λ text. Begins (codes "cub " ++ command.now) text.now) }
    ensures command { IfSome result (λ _. IsCommand command.now) }
    ensures none { IfNone result (¬ IsCommand command.now) }
{
    if command == "audit" {
        Some(about_audit())
    } else if command == "explain" {
        Some(about_explain())
    } else if command == "batch" {
        Some(about_batch())
    } else if command == "check" {
        Some(about_check())
    } else if command == "self" {
        Some(about_self())
    } else if command == "help" {
        Some(about_help())
    } else if command == "version" {
        Some(about_version())
    } else {
        about_look(command)
    }
}
