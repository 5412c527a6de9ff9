//! Scripts that are built and run, with what python3 prints for each and how it ends, with the class of an uncaught exception alone; or
//! with the stop that is named. `checks/compare` does the same with `examples/`.

use crate::calling::{called, outcome};
use nuit_lib::Status;
use std::alloc::Global;
use std::test::Fail;

/// Scripts, each with the outcome of its run behind a line of four dashes.
const WORKED: &str = r##"print(0x_1F); print( 7 # c
)
----
0
31
7
----
====
print(170141183460469231731687303715884105727 + 1)
----
5
----
nuit: stop: Int
====
i = 0
while i < 3:
    i += 1
    if i == 2:
        continue
    print(i)
else:
    print("else")
while True:
    break
else:
    print("no")
----
0
1
3
else
----
====
print("a" * 16777217)
----
5
----
nuit: stop: Size
====
print(2 ** -1)
----
5
----
nuit: stop: Float
====
1 // 0
----
1
----
Traceback (most recent call last):
  File "t.py", line 1, in <module>
ZeroDivisionError
====
x = 5
while x: x -= 2
----
6
----
nuit: steps
"##;

// Whether building the script and running the text comes to this.
fn comes_to(alloc: Global, block: &str) -> Result<bool, Fail> {
    let Some((script, wanted)) = block.split_once("----\n") else {
        return Ok(false);
    };
    let (built, text, silent) = called(alloc, "000 build t.py", script.as_bytes())?;
    let found = outcome(alloc, "000 run t.py 100000", text.bytes())?;
    Ok(built == Status::Done && silent.bytes().is_empty() && found.as_str() == wanted)
}

#[test]
fn scripts_do_what_python_does(rt: HostRuntime) -> Result<(), Fail> {
    for block in WORKED.split("====\n") {
        assert!(rt; comes_to(rt.alloc(), block)?, "{block}");
    }
    Ok(())
}

#[test]
fn a_loop_without_end_prints_whole_lines(rt: HostRuntime) -> Result<(), Fail> {
    let script = b"while True:\n    print(1)\n";
    let (_built, text, _silent) = called(rt.alloc(), "000 build t.py", script)?;
    let (status, out, err) = called(rt.alloc(), "000 run t.py 1000", text.bytes())?;
    assert_eq!(rt; status, Status::Steps);
    assert!(rt; str::from_utf8(out.bytes())?.lines().all(|line| line == "1"));
    assert_eq!(rt; err.bytes(), b"nuit: steps\n".as_slice());
    Ok(())
}
