//! What C and OpenACC have and the language leaves out, and what helps.

// A line each: the word that the line of the place begins with, or that of the directive; the token before the place, the one
// there and the one behind; what could stand there; and what helps. `_` is any, `|` parts alternatives, `@word` and `@number`
// are any word and number, `@line` and `@end` the end of the line and of the text, `@loop` the loop's name, and `@parts` what is
// left behind the first `%` of a line `%%`. The first line that fits is told.

/// Of bytes, of the preprocessor, outside of hosts, and of declarations.
pub(crate) const TEXTS: &[u8] = b"\
_ _ \\ _ _ write the directive in one line\n\
_ _ \xEF _ _ save the text without a byte order mark\n\
_ _ % @parts _ a line `%%` parts the two texts of one file: with two files, or for `run`, leave it out\n\
_ _ % % _ `%%` stands alone in its line, without a blank or a carriage return\n\
_ _ /|% _ _ there is no stand-in: leave the loop out where only counters are asked for\n\
_ _ . _ _ write a whole number\n\
_ _ \"|' _ _ write the range alone: `print(a[0:2]);`\n\
_ ( & _ _ write the array, or its range: `a[0:4]`\n\
_ _ &|!|~|^ _ _ the operators are `-`, `*`, `+`, `<`, `<=`, `>`, `>=`, `==`, `!=` and `? :`\n\
_ _ # include _ leave it out: the routines are known\n\
_ # include _ _ leave it out: the routines are known\n\
_ _ # define|undef _ leave it out, and write the number for its name: macros aren't known\n\
_ # define|undef _ _ leave it out, and write the number for its name: macros aren't known\n\
_ _ # if|ifdef|ifndef|else|endif _ write out the branch that you ask about\n\
_ _ # pragma host directives stand in a host: `host { .. }`\n\
_ _ omp _ _ write `acc`: OpenMP isn't known\n\
_ _ int|void main _ write `host` for `int main(void)`\n\
_ _ static|extern long|int|double|float|char|short|unsigned|signed|size_t|int64_t|const _ leave it out: an array is `long a[4];`\n\
_ _ void|static|inline|extern|struct|typedef _ _ write each call out where it stands, with its arrays\n\
_ _ int|double|float|char|short|unsigned|signed|size_t|int64_t|const _ _ write `long`, before the first `host`, and its length as a number: `long a[4];`\n\
_ _ round|take|do _ host a schedule stands behind a line `%%`\n\
_ host @number _ _ a schedule stands behind a line `%%`\n\
_ long long _ _ write `long` once\n\
_ _ long _ _ arrays are declared before the first `host`\n\
_ ;|}|@end @word (|[|= host statements stand in a host: `host { .. }`\n\
long @word =|;|, _ _ a scalar isn't known: write its number where it is used\n\
long ] , _ _ declare each array by itself: `long a[4]; long b[4];`\n\
long [ ] _ _ write how many cells it has: `long a[4]`\n\
long long * _ _ write the array and its cells for a pointer\n\
long = _ _ { write the values in braces: `= {1, 2}`\n\
_ ] [ _ _ write one array of all its cells: `long a[16];` for `long a[4][4];`\n\
";

/// Of directives and their clauses.
pub(crate) const DIRECTIVES: &[u8] = b"\
_ acc kernels|serial loop _ write `parallel loop`\n\
_ acc kernels|serial _ _ write `data` with its clauses, and in it a `parallel loop` for each loop\n\
_ acc loop _ _ write `parallel loop`\n\
_ acc end _ _ a data construct ends at its `}`\n\
_ parallel _ _ loop write `parallel loop`; where it has several loops, `data` around one for each\n\
_ acc set _ _ call the routine: `acc_set_device_num(1);` or `acc_set_default_async(1);`\n\
_ acc declare|host_data|routine|cache|atomic|init|shutdown _ _ there is no stand-in: leave it out\n\
_ _ deviceptr|attach|detach|use_device|link|device_resident _ _ there is no stand-in: leave it out\n\
_ _ reduction|private|firstprivate|lastprivate _ _ there is no stand-in: leave the loop out where only counters are asked for\n\
_ _ collapse|tile _ _ write one loop, over cells that stand side by side\n\
_ _ gang|worker|vector|seq|independent|auto|num_gangs|num_workers|vector_length|device_type _ _ leave it out: no answer rests on it\n\
_ _ default _ _ write the clause that is meant, with its arrays: `present(a)` for `default(present)`, none for `default(none)`\n\
data _ async|wait _ _ write `enter data` and `exit data` with that clause\n\
enter _ copy|copyout|delete|present _ copyin write `copyin` or `create`; data goes out at `exit data`\n\
exit _ copy|copyin|create|present _ copyout write `copyout` or `delete`\n\
update _ copy|copyin|copyout|to|from _ self write `device` for what goes in, `self` for what comes out\n\
parallel _ no_create _ _ write `data no_create(..)` around the loop\n\
_ _ if_present _ _ it stands on `update` alone, once\n\
_ _ finalize _ _ it stands on `exit data` alone, once\n\
enter|exit|update|data|parallel|wait )|data|update|loop|wait|, , _ _ leave the comma out: one may stand between two clauses, and none on a `wait`\n\
_ _ devnum|queues _ _ write the numbers of the queues alone: `wait(1)`\n\
wait _ @word _ acc_async_noval write the number of the queue: `wait(1)`\n\
_ _ @word _ acc_async_noval write the number of the queue: `async(1)`\n\
enter|exit|update|data _ @line _ copyin|copyout|self a data clause stands in the same line\n\
data _ { _ _ write the `{` on the line behind the directive\n\
";

/// Of loops and statements, and of what is missing.
pub(crate) const STATEMENTS: &[u8] = b"\
for _ _ _ ++ write `i++`: a loop goes up by 1\n\
for @word <=|>|>=|!=|== _ < write `i < 4` for `i <= 3`: a loop goes up to the number behind its last\n\
for ; ++ _ _ write `i++`: a loop goes up by 1\n\
for =|<|- @word _ @number write a number: a loop's bounds are numbers\n\
_ _ for _ _ write its turns out, or `#pragma acc parallel loop` before it\n\
_ ] +|-|* = _ write `a[i] = a[i] + 1` for `a[i] += 1`\n\
_ ] ++|- _ = write `a[i] = a[i] + 1` for `a[i]++`\n\
_ [ _ _ @loop write the loop's name: a loop's cells are at its own index\n\
_ _ @word _ @loop write its number: a loop knows its own name alone\n\
_ @word = _ [ write the cell: `a[0] = 3`\n\
_ _ ; _ + write the result into another array: what a loop assigns it reads at its own index alone\n\
_ _ } _ host leave it out: each `{` has its `}`\n\
_ ; } _ _ write the result into another array: what a loop assigns it reads at its own index alone\n\
_ _ if|else|switch _ _ write out the branch that you ask about\n\
_ _ return _ _ leave it out: a host ends behind its last statement\n\
_ _ while|do|goto|break|continue _ _ write its turns out\n\
_ _ printf|puts|fprintf _ _ write `print` with a range: `print(a[0:1]);`\n\
_ _ malloc|calloc|free|acc_malloc|acc_free _ _ arrays are declared: `long a[4];`\n\
_ _ ] _ : a range is `a[LOWER:LENGTH]`: write `a[0:1]` for cell 0 alone\n\
print _ , _ _ write each range by itself: `print(a); print(b);`\n\
acc_set_device_num _ , _ _ write the device's number alone\n\
_ _ , _ ) write the range for pointer and size: `acc_copyin(a[0:4]);`\n\
_ print @word _ ( write the range in parentheses: `print(a);`\n\
print ( @word ( _ a call doesn't stand in `print`\n\
print ( @number _ _ write the array, or its range: `print(a);`\n\
_ _ acc_is_present|acc_async_test|acc_async_test_all|acc_get_device_num|acc_get_num_devices _ _ a question stands in `print`: `print(acc_is_present(a));`\n\
_ _ acc_copyin_async|acc_create_async|acc_copyout_async|acc_delete_async|acc_update_device_async|acc_update_self_async _ _ write the directive: `#pragma acc update self(a) async(1)` for `acc_update_self_async(a, .., 1)`\n\
_ _ acc_init|acc_shutdown|acc_set_device_type|acc_get_device_type|acc_map_data|acc_unmap_data|acc_deviceptr|acc_hostptr _ _ there is no stand-in: leave it out\n\
_ [ - _ _ cells count from 0\n\
_ = @word _ @number write the number that it gives\n\
_ @number +|-|*|<|>|== _ ; write the number that it gives\n\
_ _ @word _ @number write its number: macros and variables aren't known\n\
_ _ @number _ @number write decimal digits alone, without a leading zero\n\
_ _ _ _ { set the `{`, and its `}` behind the last statement\n\
_ _ @end _ } close each `{` by its `}`\n\
_ _ @end _ */ close the comment by `*/`\n\
";

/// Of limits of a script.
pub(crate) const LIMITS: &[u8] = b"\
_ _ host _ _ a script has at most 8 hosts\n\
_ _ long _ _ a script has at most 64 arrays\n\
_ acc data _ _ at most 64 data constructs stand inside one another\n\
long [ _ _ _ an array has 1 to 65536 cells\n\
long {|, @number|- _ _ an array has no more values than cells\n\
_ _ ;|} _ _ a loop's bounds and offsets go to 65536, it has at most 16 statements, and an expression is at most 32 deep\n\
_ _ (|-|?|: _ _ at most 64 parentheses, signs and `?:` stand inside one another\n\
_ , @number|-|acc_async_sync|acc_async_noval _ _ a list has at most 64 queues\n\
_ ,|( @word _ _ a directive has at most 64 ranges\n\
";

/// Of schedules.
pub(crate) const SCHEDULES: &[u8] = b"\
_ _ #|//|/* _ _ a comment is a line that begins with `#`\n\
_ _ \r _ _ write plain line feeds\n\
_ _ % _ _ one line `%%` parts a script and its schedule in one file: leave this one out\n\
round round @line|@end _ _ write how often: `round 20`\n\
host host _ _ _ write the host's number, from 0 in the order of the script: with one host, `host 0`\n\
take|do take|do _ _ _ write the device's number, from 0 (without `--devices` there is one), and the queue: `take 0 sync`\n\
take|do @number _ _ sync write the queue: `sync`, `noval`, or `0` to `13`\n\
_ _ @number _ @number write a number of decimal digits, without a leading zero, from 1 to 10000 for how often\n\
_ _ @line|@end _ host a line is empty, or has words\n\
";
