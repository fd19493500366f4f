// The commands, a line each.
ghost use Rattle.std.specs.Prelude.{◌≡◌};
ghost use Rattle.command_help.specs.Commands.{Begins, first_lines, version_text};

/// What `cub` is for, and a line for each command that a person needs first: the first six lines of `overview`.
pub fn command_lines() -> &'static str
    ensures { result.now ≡ first_lines }
{
    "cub follows one run of one preprocessed C11 program and says what C makes of it.
  cub audit FILE     the verdict, in lines for scripts
  cub explain FILE   the verdict, and why, for a person
  cub batch FILE..   a line for each of many programs or inputs, and how many had which verdict
  cub check FILE C   whether the certificate C holds for FILE
  cub help COMMAND   what COMMAND takes, with an example
"
}

/// The same, the other commands, how to begin, and what the statuses mean.
pub fn overview() -> &'static str
    ensures { Begins first_lines result.now }
{
    "cub follows one run of one preprocessed C11 program and says what C makes of it.
  cub audit FILE     the verdict, in lines for scripts
  cub explain FILE   the verdict, and why, for a person
  cub batch FILE..   a line for each of many programs or inputs, and how many had which verdict
  cub check FILE C   whether the certificate C holds for FILE
  cub help COMMAND   what COMMAND takes, with an example
  cub swap FILE      both orders of the two evaluations that a verdict on the order names
  cub static FILE    which expressions aren't known never to race; nothing is run
  cub story FILE O   what a run does with the object O, step by step
  cub errors FILE    the verdict, and what the program wrote to standard error
  cub self SEED N    audits a generated program of N lines
  cub version        the version, and the checker that proved it

To begin:  cc -E -nostdinc -I headers prog.c | cub explain -
Statuses:  0 clean, 1 undefined, 2 order-dependent, 3 out of steps, 4 outside a limit, 5 certificate
           doesn't hold, 6 both orders differ, 7 they are alike, 8 some expressions aren't known never to
           race, 10 these words, 11-15 the text, 16 certificate, 20-21 files, 30 memory
"
}

/// The version, and the line of the kit whose checker proved it.
pub fn version() -> &'static str
    ensures { result.now ≡ version_text }
{
    "cub 1
proved with rattle-kit-13f logic dac8208d650f15bf
"
}
