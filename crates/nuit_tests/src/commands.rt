//! Commands: the words, the file, and the calls that fail.

use crate::calling::{called, is_right};
use nuit_lib::Status;
use std::test::Fail;

/// Calls, in this order: `build`, no file, other words, `run`; then with a first fetch or put that fails; then with second puts that would
/// fail, which shows that a text and a message are one put each.
const CALLS: &str = r#"000 build t.py
----
0
/* nuit C 1 */
#include "nuit1.h"
NU_SCRIPT("t.py", 1, 0)
NU_CODE(0, "<module>", "", 0, 0, 1)
nu nu_code_0(nu_frame *fr)
{
  return nu_end(fr);
}
----
====
000 build t.py
print(7)
----
0
/* nuit C 1 */
#include "nuit1.h"
NU_SCRIPT("t.py", 1, 0)
NU_CODE(0, "<module>", "", 0, 0, 1)
nu nu_code_0(nu_frame *fr)
{
  nu r0, r1;
  r0 = nu_global(fr, 1, "print"); if (nu_bad(fr)) goto L0;
  r1 = nu_call(fr, 1, r0, nu_int("7")); if (nu_bad(fr)) goto L0;
  return nu_end(fr);
L0:;
  return nu_fail(fr);
}
----
====
000 build t.py
x = 170141183460469231731687303715884105728----
3
----
nuit: refused: Number, line 1
====
000 build t.py
print(1)
def f(): return x----
3
----
nuit: refused: Name, line 2
====
000 build t.py
print(1)
def f(): return 1----
3
----
nuit: refused: Unbuilt, line 2
====
000 build u.py
----
12
----
nuit: no such file
====
000 run u.py
----
12
----
nuit: no such file
====
000
----
2
----
nuit: usage: tree FILE, build FILE, run FILE [STEPS], sample N
====
000 build
----
2
----
nuit: usage: tree FILE, build FILE, run FILE [STEPS], sample N
====
000 make t.py
----
2
----
nuit: usage: tree FILE, build FILE, run FILE [STEPS], sample N
====
000 build t.py t.py
----
2
----
nuit: usage: tree FILE, build FILE, run FILE [STEPS], sample N
====
000 run t.py 18446744073709551616
----
2
----
nuit: usage: tree FILE, build FILE, run FILE [STEPS], sample N
====
000 run t.py 01
----
2
----
nuit: usage: tree FILE, build FILE, run FILE [STEPS], sample N
====
000 run t.py 
----
2
----
nuit: usage: tree FILE, build FILE, run FILE [STEPS], sample N
====
000 run t.py
/* nuit C 1 */
#include "nuit1.h"
NU_SCRIPT("t.py", 1, 0)
NU_CODE(0, "<module>", "", 0, 0, 1)
nu nu_code_0(nu_frame *fr)
{
  return nu_end(fr);
}
----
0
----
====
000 run seven.c
----
0
7
----
====
000 run seven.c 3
----
0
7
----
====
000 run seven.c 2
----
6
7
----
nuit: steps
====
000 run seven.c 0
----
6
----
nuit: steps
====
000 run seven.c 18446744073709551615
----
0
7
----
====
000 run t.py
print(7)
----
4
----
nuit: not C, line 1
====
000 run t.py
/* nuit C 1 */
#include "nuit1.h"
NU_SCRIPT("t.py", 1, 0)
NU_CODE(0, "<module>", "", 0, 0, 1)
nu nu_code_0(nu_frame *fr)
{
  nu r0, r1;
  r0 = nu_global(fr, 1, "print"); if (nu_bad(fr)) goto L0;
  r1 = nu_call(fr, 1, r0, nu_int("7")); if (nu_bad(fr)) goto L0;
  return nu_end(fr);
L0:;
  return nu_fail(fr);
}----
4
----
nuit: not C, line 13
====
100 build t.py
----
7
----
nuit: read fault
====
100 run seven.c
----
7
----
nuit: read fault
====
101 build t.py
----
8
----
====
010 build t.py
----
8
----
====
001 build t.py
y----
8
----
====
001
----
8
----
====
010 run seven.c
----
8
----
====
001 run seven.c 2
----
8
7
----
====
022 build t.py
print(7)
----
0
/* nuit C 1 */
#include "nuit1.h"
NU_SCRIPT("t.py", 1, 0)
NU_CODE(0, "<module>", "", 0, 0, 1)
nu nu_code_0(nu_frame *fr)
{
  nu r0, r1;
  r0 = nu_global(fr, 1, "print"); if (nu_bad(fr)) goto L0;
  r1 = nu_call(fr, 1, r0, nu_int("7")); if (nu_bad(fr)) goto L0;
  return nu_end(fr);
L0:;
  return nu_fail(fr);
}
----
====
022 build t.py
y----
3
----
nuit: refused: Name, line 1
====
022 build u.py
----
12
----
nuit: no such file
====
022
----
2
----
nuit: usage: tree FILE, build FILE, run FILE [STEPS], sample N
====
022 run t.py
print(7)
----
4
----
nuit: not C, line 1
====
022 run seven.c 2
----
6
7
----
nuit: steps
====
122 run seven.c
----
7
----
nuit: read fault
"#;

#[test]
fn commands_do_their_work_or_say_why_not(rt: HostRuntime) -> Result<(), Fail> {
    for block in CALLS.split("====\n") {
        assert!(rt; is_right(rt.alloc(), block, "", "")?, "{block}");
    }
    Ok(())
}

#[test]
fn a_script_may_be_too_large(rt: HostRuntime) -> Result<(), Fail> {
    let script = vec![in rt.alloc(); b'#'; 262_145]?;
    let (status, _out, err) = called(rt.alloc(), "022 build t.py", &script)?;
    assert_eq!(rt; status, Status::TooLarge);
    assert_eq!(rt; err.bytes(), b"nuit: too large\n".as_slice());
    Ok(())
}
