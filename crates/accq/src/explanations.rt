//! What the guide says of each fault and of each kind of fault: made of it by `bin/explain --write`.

/// `F1 Closed`.
pub const CLOSED: &str =
    "F1 Closed: the directive comes behind a `close` of the schedule; the `}` of a data construct, a routine that stands for a directive,
and the questions `acc_is_present`, `acc_async_test` and `acc_async_test_all` are directives too. Give the host more steps before the
`close`, or leave that line out. With `host 0`, `close` and `round 5` the second line is refused:

    #pragma acc enter data create(a) async(1)
    #pragma acc update self(a) async(1)

Each example has `long a[8];` and `long b[8];`.
";

/// `F2 BadDevice`.
pub const BAD_DEVICE: &str =
    "F2 BadDevice: there is no such device. Devices count from 0, and there is one where no option says otherwise. Ask with
`--devices 2`, or for another number:

        acc_set_device_num(1);

Each example has `long a[8];` and `long b[8];`.
";

/// `F3 BadAsync`.
pub const BAD_ASYNC: &str =
    "F3 BadAsync: a negative async value that is neither `acc_async_noval` (-1) nor `acc_async_sync` (-2), in `async`, in a wait,
in a question or as default. Use a value of zero or more:

    #pragma acc enter data create(a) async(-5)

Each example has `long a[8];` and `long b[8];`.
";

/// `F4 BadRange`.
pub const BAD_RANGE: &str =
    "F4 BadRange: the range reaches beyond its array, or has no cell, as `a[8:]`; or a write names a cell that isn't there. Most
often the second number was meant as the last cell, and it is a length. Either line is refused; write `a[2:6]` and `a[7]`:

    #pragma acc enter data copyin(a[2:8])
        a[8] = 1;

Each example has `long a[8];` and `long b[8];`.
";

/// `F5 TooMany`.
pub const TOO_MANY: &str =
    "F5 TooMany: the directive has more than 16 ranges, over all its clauses, or a loop has so many with those of its arrays
without a clause; or its wait has more than 16 values; equal ones count too. Make two directives of it. Or its data construct is
inside 32 others: enter some by `enter data`.

    #pragma acc enter data copyin(a, a, a, a, a, a, a, a, a, a, a, a, a, a, a, a, a)

Each example has `long a[8];` and `long b[8];`.
";

/// `F6 PartlyPresent`.
pub const PARTLY_PRESENT: &str =
    "F6 PartlyPresent: some of the range's cells are present, and no one present range has all of them. The second line is
refused. Enter all cells in the first, with `a[0:6]`; or in the second only those that are absent, with `a[4:2]`; or exit the
first range in between:

    #pragma acc enter data copyin(a[0:4])
    #pragma acc enter data copyin(a[2:4])

A loop without a clause for `a` means all of `a`, unless a data construct around it names it; so behind the first line above this
is F6 too, and `copy(a[0:4])` or `present(a[0:4])` on the loop heals it:

    #pragma acc parallel loop
        for (i = 0; i < 4; i++)
            a[i] = 1;

Each example has `long a[8];` and `long b[8];`.
";

/// `F7 NotPresent`.
pub const NOT_PRESENT: &str =
    "F7 NotPresent: the range is absent, in a clause `present` or in an `update`. Enter it before; or, for the `update`, add
`if_present`, and on a data construct write `no_create` for `present`: then nothing is done. The cause may be an exit that was the
last one, or another host that comes later than meant:

    #pragma acc update self(a)

Each example has `long a[8];` and `long b[8];`.
";

/// `F8 DeviceFull`.
pub const DEVICE_FULL: &str =
    "F8 DeviceFull: more cells would be present on the device than it has room for. Each counts once, however often it was
entered, and no more once its range was left for the last time. With `--cells 8` the second line is refused. Ask with more cells,
leave a range before, or enter less; without `--cells` there is room for all that a script can declare:

    #pragma acc enter data create(a)
    #pragma acc enter data create(b[0:1])

Each example has `long a[8];` and `long b[8];`.
";

/// `F9 OutsideRange`.
pub const OUTSIDE_RANGE: &str =
    "F9 OutsideRange: the loop refers to a cell outside the range that it uses: that of the first clause with the array, else
that of the data construct around it, else the whole array. Both parts of `?:` count, taken or not. Here the loop refers to
`a[8]`; write `i < 7`:

    #pragma acc parallel loop
        for (i = 0; i < 8; i++)
            b[i] = a[i + 1];

Each example has `long a[8];` and `long b[8];`.
";

/// `F10 NoRegion`.
pub const NO_REGION: &str =
    "F10 NoRegion: the end of a data construct of a host that is in none; each `}` of a script has its own.
";

/// `F11 Memory`.
pub const MEMORY: &str =
    "F11 Memory: memory was refused to the statement, or with `run` a thread to its host, which then stands at its first one; so the
same question may be answered on another machine. Give the program more memory, or more threads, or ask with shorter arrays. (Where the
host was already waiting for the directive's batch, the directive stands.)
";

/// `F12 QueueFull`.
pub const QUEUE_FULL: &str =
    "F12 QueueFull: the queue holds as many batches that it hasn't taken as it has room for, 64 without `--room`. Let it take some,
by rounds between the steps of the host; or let the host wait now and then; or ask with more room. With `--room 2` and the schedule
`host 0 3` the third line is refused; in rounds none is:

    #pragma acc enter data create(a[0:1]) async(1)
    #pragma acc enter data create(a[1:1]) async(1)
    #pragma acc enter data create(a[2:1]) async(1)

Each example has `long a[8];` and `long b[8];`.
";

/// `F13 Unfinished`.
pub const UNFINISHED: &str =
    "F13 Unfinished: the answer of a runtime of threads to who wants to finish it, in a program of his own: a queue hasn't performed its close.
";

/// `F14 HostsDiffer`.
pub const HOSTS_DIFFER: &str =
    "F14 HostsDiffer: the answer of such a runtime to who wants to finish or abandon it: what hosts list is another run's.
";

/// `Text`.
pub const TEXT: &str = "Text, in a script, with its remedy:
  `a[0] = 0.5;` `long café[2];` `a[i] / 2`: a byte at which nothing begins
      whole numbers; names of plain letters, digits, `_`
  a `%%` with a blank or a carriage return at its line's end is script, and so is any where script and schedule are two files, or for `run`
      `%%` alone in its line, and plain line feeds; with two files, or for `run`, none
  a `\\` at a line's end
      a directive in one line

Text, in a schedule, with its remedy:
  a carriage return, or another byte that isn't plain
      plain line feeds
";

/// `End`.
pub const END: &str = "End, in a script, with its remedy:
  a `}` is missing, of a host or a data construct, or a comment isn't closed; the line is that of the end
      close it
";

/// `Name`.
pub const NAME: &str = "Name, in a script, with its remedy:
  `copyin(b)` `printf(\"x\");`: a name that isn't declared, is declared twice or is too long
      declare it; `print(a);`
  in a loop `a[i] = n;`: a name that isn't the loop's, or an array's without `[i]`
      its number; `a[i]`
  `for (a = 0; ..)`: the loop's name is an array's
      another name

Name, in a schedule, with its remedy:
  `host 1` with one host, `take 1 0` with one device, `do 0 14`
      hosts and devices count from 0; queues are `sync`, `noval`, `0` to `13`
";

/// `Form`.
pub const FORM: &str = "Form, in a script, with its remedy:
  `print(a)`: the `;` is missing, which is told at the token behind
      set it
  `double a[2];` `long a[N];` `a[0] = a[1];` `#include`: not in the language
      From a C program to a script (docs/GUIDE.md)
  `kernels`, `if(n)`, `acc_init(..)`: a directive, clause or routine that isn't in the language
      the same
  `data copy(a) async`, `enter data copy(a)`, `parallel loop no_create(a)`, `exit data copyout(a) if_present`: a clause on the wrong directive
      which may stand where (docs/LANGUAGE.md)
  `update async(1)`, `enter data`: no data clause, told with the directive's line
      add one
  `async(1) async(2)`: the clause stands there already
      leave one out
  `wait(1), async(2)`: a comma before the first clause
      leave it out
  `a[i] = a[i + 1];`, told with the line of `for`: the loop reads off `[i]` what it assigns
      another array for the result
  `for (i = 0; i <= 3; i++)`, `a[3] = i;` in a loop, `a[i] += 1;`
      `i < 4`; `a[i] = ..`; `a[i] = a[i] + 1;`
  `acc_is_present(a);`, `print(acc_copyin(a));`
      a question stands in `print`, a call doesn't
  `round 3` behind the script, without a line `%%`
      the line `%%`

Form, in a schedule, with its remedy:
  `rounds 3` `round 03` `round` `round 3 // three`
      `round 3`; a comment is a line that begins with `#`
  `take 0`, `close 2`: too few words, or too many
      `take 0 sync`; `close`
";

/// `Limit`.
pub const LIMIT: &str = "Limit, in a script, with its remedy:
  `long a[0];` `long a[2] = {1, 2, 3};` `i < 70000`
      Limits (docs/LANGUAGE.md) has them all

Limit, in a schedule, with its remedy:
  `round 0` `round 20000`, or too many events in all: 30,303 rounds are the most with one host and one device
      fewer rounds
";

/// The words that are explained: a fault by its number or its name, and a kind of fault.
pub const WORDS: &str =
    "F1 Closed, F2 BadDevice, F3 BadAsync, F4 BadRange, F5 TooMany, F6 PartlyPresent, F7 NotPresent,
F8 DeviceFull, F9 OutsideRange, F10 NoRegion, F11 Memory, F12 QueueFull, F13 Unfinished,
F14 HostsDiffer, Text, End, Name, Form, Limit
";
