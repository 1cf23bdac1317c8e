//! Texts with a mistake, and what is told of each.

use acc_check::{check_schedule, check_script};
use std::alloc::Global;
use std::io::Result;
use std::process::Abort;
use std::test::Fail;

/// A text, and the lines that are told of it under the name `a`: none of a script.
const SCRIPTS: &[(&[u8], &[u8])] = &[
    (b"", b""),
    (b"long a[4];\nhost {\na[0] = 1;\n}\n", b""),
    (
        b"int a[4];\n",
        b"a:1:1: Form: `int` cannot stand here\n  int a[4];\n  ^\ncould stand: `long`, `host`\nhelp: write `long`, before the first `host`, and its length as a number: `long a[4];`\n",
    ),
    (
        b"long n = 4;\n",
        b"a:1:8: Form: `=` cannot stand here\n  long n = 4;\n         ^\ncould stand: `[`\nhelp: a scalar isn't known: write its number where it is used\n",
    ),
    (
        b"long a[4];\nhost {\n#pragma acc parallel loop\nfor (i = 0; i < 4; i++)\n    a[i] += 1;\n}\n",
        b"a:5:10: Form: `+` cannot stand here\n      a[i] += 1;\n           ^\ncould stand: `=`\nhelp: write `a[i] = a[i] + 1` for `a[i] += 1`\n",
    ),
    (
        b"long a[4];\nhost {\n#pragma acc parallel copy(a)\n",
        b"a:3:22: Form: `copy` cannot stand here\n  #pragma acc parallel copy(a)\n                       ^\ncould stand: `loop`\nhelp: write `parallel loop`; where it has several loops, `data` around one for each\n",
    ),
    (
        b"long a[4];\nhost {\n#pragma acc wait(1), async(2)\n}\n",
        b"a:3:20: Form: `,` cannot stand here\n  #pragma acc wait(1), async(2)\n                     ^\ncould stand: `async`, the end of the line\nhelp: leave the comma out: one may stand between two clauses, and none on a `wait`\n",
    ),
    (
        b"long a[4];\nhost {\n#pragma acc enter data copyin(a[0:n])\n}\n",
        b"a:3:35: Form: `n` cannot stand here\n  #pragma acc enter data copyin(a[0:n])\n                                    ^\ncould stand: `]`, a number\nhelp: write its number: macros and variables aren't known\n",
    ),
    (
        b"long a[4];\nhost {\n#pragma acc enter data copyin(c)\n}\n",
        b"a:3:31: Name: `c` is not declared\n  #pragma acc enter data copyin(c)\n                                ^\ncould stand: an array's name\n",
    ),
    (
        b"long a[65537];\n",
        b"a:1:8: Limit: `65537` passes a limit; the largest number here is 65536\n  long a[65537];\n         ^\ncould stand: a number\nhelp: an array has 1 to 65536 cells\n",
    ),
    (
        b"long a[4];\nhost {\n\ta[0] = 1.5;\n",
        b"a:3:10: Text: `.` cannot stand here\n  \ta[0] = 1.5;\n  \t        ^\ncould stand: `;`\nhelp: write a whole number\n",
    ),
    (
        b"long a[2]; /* a */ // b\nhost { a[0] <= 1; }",
        b"a:2:13: Form: `<=` cannot stand here\n  host { a[0] <= 1; }\n              ^\ncould stand: `=`\n",
    ),
    (
        b"long a[2];\n\r\x01\nhost { }\n",
        b"a:2:2: Text: byte 0x01 cannot stand here\n  ??\n   ^\ncould stand: `long`, `host`\n",
    ),
    (
        b"\xEF\xBB\xBFlong a[2];\n",
        b"a:1:1: Text: byte 0xEF (a byte order mark begins so) cannot stand here\n  \xEF\xBB\xBFlong a[2];\n  ^\ncould stand: `long`, `host`\nhelp: save the text without a byte order mark\n",
    ),
    (
        b"long a[4",
        b"a:1:9: End: the end of the text, where more has to stand\n  long a[4\n          ^\ncould stand: `]`\n",
    ),
    (
        b"long value[4];\nhost {\nprint(valeu);\n}\n",
        b"a:3:7: Name: `valeu` is not declared; `value` is\n  print(valeu);\n        ^\ncould stand: `acc_is_present`, `acc_async_test`, `acc_async_test_all`, `acc_get_device_num`, `acc_get_num_devices`, an array's name\n",
    ),
    (
        b"long a[4];\nhost {\n#pragma acc enter data copyn(a)\n}\n",
        b"a:3:24: Form: `copyn` cannot stand here; `copyin` could\n  #pragma acc enter data copyn(a)\n                         ^\ncould stand: `wait`, `copyin`, `create`, `async`\n",
    ),
    (
        b"long a[2];\nlong a[3];\n",
        b"a:2:6: Name: `a` is declared already\n  long a[3];\n       ^\ncould stand: a new name\n",
    ),
    (
        b"long a[4];\nhost {\n#pragma acc parallel loop\nfor (i = 0; i < 4; i++)\n    a[j] = 1;\n}\n",
        b"a:5:7: Form: `j` cannot stand here\n      a[j] = 1;\n        ^\ncould stand: the loop's name\nhelp: write the loop's name: a loop's cells are at its own index\n",
    ),
    (
        b"long a[4];\nhost {\n",
        b"a:3:1: End: the end of the text, where more has to stand\n  \n  ^\ncould stand: `#`, `print`, `acc_copyin`, `acc_create`, `acc_copyout`, `acc_delete`, `acc_copyout_finalize`, `acc_delete_finalize`, `acc_update_device`, `acc_update_self`, `acc_wait`, `acc_wait_all`, `acc_wait_async`, `acc_set_device_num`, `acc_set_default_async`, `}`, an array's name\nhelp: close each `{` by its `}`\n",
    ),
    (
        b"host { }\n%%\nround 5\n",
        b"a:2:1: Text: `%` cannot stand here\n  %%\n  ^\ncould stand: `host`\nhelp: a line `%%` parts the two texts of one file: with two files, or for `run`, leave it out\n",
    ),
    (
        b"host { }\n%% \nround 5\n",
        b"a:2:1: Text: `%` cannot stand here\n  %% \n  ^\ncould stand: `host`\nhelp: `%%` stands alone in its line, without a blank or a carriage return\n",
    ),
    (
        b"long a[4];\nhost {\n#pragma acc parallel loop\nfor (i = 0; i < 3; i++) {\n    a[i] = a[i + 1];\n}\n}\n",
        b"a:6:1: Form: `}` cannot stand here\n  }\n  ^\ncould stand: an array's name\nhelp: write the result into another array: what a loop assigns it reads at its own index alone\n",
    ),
    (
        b"long a[4];\nhost { } }\n",
        b"a:2:10: Form: `}` cannot stand here\n  host { } }\n           ^\ncould stand: `host`\nhelp: leave it out: each `{` has its `}`\n",
    ),
    (
        b"static long a[4];\n",
        b"a:1:1: Form: `static` cannot stand here\n  static long a[4];\n  ^\ncould stand: `long`, `host`\nhelp: leave it out: an array is `long a[4];`\n",
    ),
    // `host` is near, but no help
    (
        b"const long a[4];\n",
        b"a:1:1: Form: `const` cannot stand here\n  const long a[4];\n  ^\ncould stand: `long`, `host`\nhelp: write `long`, before the first `host`, and its length as a number: `long a[4];`\n",
    ),
    (
        b"long a[4];\n/* open\n",
        b"a:3:1: End: the end of the text, where more has to stand\n  \n  ^\ncould stand: `*/`\nhelp: close the comment by `*/`\n",
    ),
];

/// A text, and the lines that are told of it as a schedule for one host and one device, under the name `s`, from its line 7 on:
/// none of a schedule.
const SCHEDULES: &[(&[u8], &[u8])] = &[
    (b"", b""),
    (b"host 0\n# any\n\nround 5\nclose", b""),
    (
        b"rounds 20\n",
        b"s:7:1: Form: `rounds` cannot stand here; `round` could\n  rounds 20\n  ^\ncould stand: `host`, `take`, `do`, `close`, `round`\n",
    ),
    (
        b"round 20\ntake 0\n",
        b"s:8:7: Form: the end of the line cannot stand here\n  take 0\n        ^\ncould stand: `sync`, `noval`, a number\nhelp: write the queue: `sync`, `noval`, or `0` to `13`\n",
    ),
    (
        b"round 20000\n",
        b"s:7:7: Limit: `20000` passes a limit; the largest number here is 10000\n  round 20000\n        ^\ncould stand: a number\nhelp: write a number of decimal digits, without a leading zero, from 1 to 10000 for how often\n",
    ),
    (
        b"close\n host 1",
        b"s:8:7: Name: `1` cannot stand here\n   host 1\n        ^\ncould stand: a number\nhelp: write the host's number, from 0 in the order of the script: with one host, `host 0`\n",
    ),
    (
        b"take 0 14",
        b"s:7:8: Name: `14` cannot stand here\n  take 0 14\n         ^\ncould stand: `sync`, `noval`, a number\nhelp: write the queue: `sync`, `noval`, or `0` to `13`\n",
    ),
    (
        b"round 3 # three",
        b"s:7:9: Form: `#` cannot stand here\n  round 3 # three\n          ^\nhelp: a comment is a line that begins with `#`\n",
    ),
    (
        b"round 3\r\n",
        b"s:7:8: Text: byte 0x0D (carriage return) cannot stand here\n  round 3?\n         ^\nhelp: write plain line feeds\n",
    ),
    (
        b"round",
        b"s:7:6: Form: the end of the text, where more has to stand\n  round\n       ^\ncould stand: a number\nhelp: write how often: `round 20`\n",
    ),
];

fn check_told(rt: &impl Abort, found: bool, lines: &[u8], wanted: &[u8]) -> Result<()> {
    assert_eq!(rt; lines, wanted);
    assert_eq!(rt; found, wanted.is_empty());
    Ok(())
}

fn check_script_told(rt: &impl Abort, alloc: Global, text: &[u8], wanted: &[u8]) -> Result<()> {
    let mut lines = Vec::new(alloc);
    let found = check_script(alloc, "a", text, &mut lines);
    assert!(rt; found.is_ok());
    check_told(rt, found == Ok(true), lines.as_slice(), wanted)
}

fn check_schedule_told(rt: &impl Abort, alloc: Global, text: &[u8], wanted: &[u8]) -> Result<()> {
    let mut lines = Vec::new(alloc);
    let found = check_schedule(alloc, "s", 7, text, 1, 1, &mut lines);
    assert!(rt; found.is_ok());
    check_told(rt, found == Ok(true), lines.as_slice(), wanted)
}

#[test]
fn mistakes_are_told_where_they_stand(rt: HostRuntime) -> std::result::Result<(), Fail> {
    for (text, wanted) in SCRIPTS {
        check_script_told(&rt, rt.alloc(), text, wanted)?;
    }
    Ok(())
}

#[test]
fn mistakes_of_schedules_are_told_in_their_line(rt: HostRuntime) -> std::result::Result<(), Fail> {
    for (text, wanted) in SCHEDULES {
        check_schedule_told(&rt, rt.alloc(), text, wanted)?;
    }
    Ok(())
}

// A text whose third line is at fault, with blanks behind it, of so many bytes.
fn long_text(alloc: Global, count: usize) -> std::result::Result<Vec<u8>, Fail> {
    let mut text = Vec::from_slice(alloc, b"\n\n?\n")?;
    text.resize(count, b' ')?;
    Ok(text)
}

/// With as many bytes as a text can have its fault is told, and with one more that alone.
#[test]
fn texts_that_are_too_long_are_told_so(rt: HostRuntime) -> std::result::Result<(), Fail> {
    let alloc = rt.alloc();
    let most = long_text(alloc, 1_048_576)?;
    let more = long_text(alloc, 1_048_577)?;
    check_script_told(
        &rt,
        alloc,
        most.as_slice(),
        b"a:3:1: Form: `?` cannot stand here\n  ?\n  ^\ncould stand: `long`, `host`\n",
    )?;
    check_script_told(
        &rt,
        alloc,
        more.as_slice(),
        b"a:4:1048573: Limit: the text is too long\nhelp: a script has at most 1048576 bytes\n",
    )?;
    check_schedule_told(
        &rt,
        alloc,
        more.as_slice(),
        b"s:10:1048573: Limit: the text is too long\nhelp: a schedule has at most 1048576 bytes\n",
    )?;
    Ok(())
}
