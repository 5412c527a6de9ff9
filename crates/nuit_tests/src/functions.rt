//! C texts made by hand, with functions and generators: what their runs print, and how they end.

use crate::calling::is_right;
use std::test::Fail;

/// Before the functions.
const FRONT: &str = r#"/* nuit C 1 */
#include "nuit1.h"
"#;

/// A generator that gets values; one that ignores its exit; one that resumes itself; an exception that is raised again; a function that
/// calls itself without end; one with defaults, a keyword and a cell; a slot that isn't there; a jump to a label that isn't there,
/// taken and not taken; a read of a register that nothing was stored in.
const TEXTS: &str = r#"000 run t.py 1000
NU_SCRIPT("t.py", 2, 0)
NU_CODE(0, "<module>", "", 0, 0, 1)
nu nu_code_0(nu_frame *fr)
{
  nu r0, r1, r2, r3, r4;
  r0 = nu_tuple(fr, 1); if (nu_bad(fr)) goto L0;
  r1 = nu_dict(fr, 1); if (nu_bad(fr)) goto L0;
  r2 = nu_func(fr, 1, nu_int("1"), r0, r1); if (nu_bad(fr)) goto L0;
  r2 = nu_call(fr, 4, r2); if (nu_bad(fr)) goto L0;
  r4 = nu_global(fr, 5, "print"); if (nu_bad(fr)) goto L0;
  r3 = nu_next(fr, 5, r2); if (nu_bad(fr)) goto L0;
  r3 = nu_call(fr, 5, r4, r3); if (nu_bad(fr)) goto L0;
  r1 = nu_attr(fr, 6, r2, "send"); if (nu_bad(fr)) goto L0;
  r3 = nu_call(fr, 6, r1, nu_int("3")); if (nu_bad(fr)) goto L0;
  r3 = nu_call(fr, 6, r4, r3); if (nu_bad(fr)) goto L0;
  r3 = nu_call(fr, 7, r1, nu_int("4")); if (nu_bad(fr)) goto L0;
  r3 = nu_call(fr, 7, r4, r3); if (nu_bad(fr)) goto L0;
  r3 = nu_next(fr, 8, r2); if (nu_bad(fr)) goto L0;
  return nu_end(fr);
L0:;
  return nu_fail(fr);
}
NU_CODE(1, "g", "", 1, 1, 1)
nu nu_code_1(nu_frame *fr)
{
  nu r0, r1;
  switch (nu_resume(fr)) { case 0: goto L1; case 1: goto L2; case 2: goto L3; case 3: goto L4; }
L1:;
  return nu_pause(fr, 1, nu_int("1"));
L2:;
  r0 = nu_sent(fr, 2); if (nu_bad(fr)) goto L0;
  nu_save(fr, 0, r0);
  return nu_pause(fr, 2, nu_int("2"));
L3:;
  r0 = nu_load(fr, 0);
  r1 = nu_sent(fr, 2); if (nu_bad(fr)) goto L0;
  r0 = nu_mul(fr, 2, r0, r1); if (nu_bad(fr)) goto L0;
  r0 = nu_add(fr, 2, nu_int("10"), r0); if (nu_bad(fr)) goto L0;
  return nu_pause(fr, 3, r0);
L4:;
  r0 = nu_sent(fr, 3); if (nu_bad(fr)) goto L0;
  return nu_end(fr);
L0:;
  return nu_fail(fr);
}
----
1
1
2
22
----
Traceback (most recent call last):
  File "t.py", line 8, in <module>
StopIteration
====
000 run t.py 1000
NU_SCRIPT("t.py", 2, 0)
NU_CODE(0, "<module>", "", 0, 0, 1)
nu nu_code_0(nu_frame *fr)
{
  nu r0, r1, r2, r3, r4;
  r0 = nu_tuple(fr, 1); if (nu_bad(fr)) goto L0;
  r1 = nu_dict(fr, 1); if (nu_bad(fr)) goto L0;
  r2 = nu_func(fr, 1, nu_int("1"), r0, r1); if (nu_bad(fr)) goto L0;
  r0 = nu_call(fr, 7, r2); if (nu_bad(fr)) goto L0;
  r1 = nu_attr(fr, 7, r0, "close"); if (nu_bad(fr)) goto L0;
  r3 = nu_call(fr, 7, r1); if (nu_bad(fr)) goto L0;
  r4 = nu_global(fr, 7, "print"); if (nu_bad(fr)) goto L0;
  r3 = nu_call(fr, 7, r4, r3); if (nu_bad(fr)) goto L0;
  r0 = nu_call(fr, 8, r2); if (nu_bad(fr)) goto L0;
  r3 = nu_next(fr, 8, r0); if (nu_bad(fr)) goto L0;
  r1 = nu_attr(fr, 9, r0, "close"); if (nu_bad(fr)) goto L0;
  r3 = nu_call(fr, 9, r1); if (nu_bad(fr)) goto L0;
  return nu_end(fr);
L0:;
  return nu_fail(fr);
}
NU_CODE(1, "k", "", 1, 0, 1)
nu nu_code_1(nu_frame *fr)
{
  nu r0, r1;
  switch (nu_resume(fr)) { case 0: goto L1; case 1: goto L2; case 2: goto L3; }
L1:;
  return nu_pause(fr, 1, nu_int("1"));
L2:;
  r0 = nu_sent(fr, 3); if (nu_bad(fr)) goto L4;
L4:;
  r1 = nu_caught(fr);
  r0 = nu_global(fr, 4, "print"); if (nu_bad(fr)) goto L0;
  r0 = nu_call(fr, 4, r0, nu_str("f")); if (nu_bad(fr)) goto L0;
  return nu_pause(fr, 2, nu_int("2"));
L3:;
  r0 = nu_sent(fr, 5); if (nu_bad(fr)) goto L0;
  nu_again(fr, r1); goto L0;
L0:;
  return nu_fail(fr);
}
----
1
None
f
----
Traceback (most recent call last):
  File "t.py", line 9, in <module>
RuntimeError
====
000 run t.py 1000
NU_SCRIPT("t.py", 2, 0)
NU_CODE(0, "<module>", "", 0, 0, 1)
nu nu_code_0(nu_frame *fr)
{
  nu r0, r1, r2;
  r0 = nu_tuple(fr, 1); if (nu_bad(fr)) goto L0;
  r1 = nu_dict(fr, 1); if (nu_bad(fr)) goto L0;
  r2 = nu_func(fr, 1, nu_int("1"), r0, r1); if (nu_bad(fr)) goto L0;
  r2 = nu_call(fr, 3, r2); if (nu_bad(fr)) goto L0;
  r0 = nu_setglobal(fr, 3, "h", r2); if (nu_bad(fr)) goto L0;
  r0 = nu_next(fr, 4, r2); if (nu_bad(fr)) goto L0;
  return nu_end(fr);
L0:;
  return nu_fail(fr);
}
NU_CODE(1, "g", "", 1, 0, 1)
nu nu_code_1(nu_frame *fr)
{
  nu r0;
  switch (nu_resume(fr)) { case 0: goto L1; case 1: goto L2; }
L1:;
  r0 = nu_global(fr, 2, "h"); if (nu_bad(fr)) goto L0;
  r0 = nu_next(fr, 2, r0); if (nu_bad(fr)) goto L0;
  return nu_pause(fr, 1, r0);
L2:;
  r0 = nu_sent(fr, 2); if (nu_bad(fr)) goto L0;
  return nu_end(fr);
L0:;
  return nu_fail(fr);
}
----
1
----
Traceback (most recent call last):
  File "t.py", line 4, in <module>
  File "t.py", line 2, in g
ValueError
====
000 run t.py 1000
NU_SCRIPT("t.py", 2, 0)
NU_CODE(0, "<module>", "", 0, 0, 1)
nu nu_code_0(nu_frame *fr)
{
  nu r0, r1, r2;
  r0 = nu_tuple(fr, 1); if (nu_bad(fr)) goto L0;
  r1 = nu_dict(fr, 1); if (nu_bad(fr)) goto L0;
  r2 = nu_func(fr, 1, nu_int("1"), r0, r1); if (nu_bad(fr)) goto L0;
  r2 = nu_call(fr, 4, r2, nu_int("0")); if (nu_bad(fr)) goto L1;
  return nu_end(fr);
L1:;
  r0 = nu_caught(fr);
  r1 = nu_exc(fr, 6, r0); if (nu_bad(fr)) goto L0;
  r1 = nu_raise(fr, 6, r1); if (nu_bad(fr)) goto L0;
L0:;
  return nu_fail(fr);
}
NU_CODE(1, "f", "nx", 0, 0, 1)
nu nu_code_1(nu_frame *fr)
{
  nu r0;
  r0 = nu_arg(fr, 0);
  r0 = nu_floordiv(fr, 2, nu_int("10"), r0); if (nu_bad(fr)) goto L0;
  return nu_give(fr, r0);
L0:;
  return nu_fail(fr);
}
----
1
----
Traceback (most recent call last):
  File "t.py", line 6, in <module>
  File "t.py", line 4, in <module>
  File "t.py", line 2, in f
ZeroDivisionError
====
000 run t.py 100000
NU_SCRIPT("t.py", 2, 0)
NU_CODE(0, "<module>", "", 0, 0, 1)
nu nu_code_0(nu_frame *fr)
{
  nu r0, r1;
  r0 = nu_tuple(fr, 1); if (nu_bad(fr)) goto L0;
  r1 = nu_dict(fr, 1); if (nu_bad(fr)) goto L0;
  r0 = nu_func(fr, 1, nu_int("1"), r0, r1); if (nu_bad(fr)) goto L0;
  r1 = nu_setglobal(fr, 1, "f", r0); if (nu_bad(fr)) goto L0;
  r1 = nu_call(fr, 3, r0); if (nu_bad(fr)) goto L0;
  return nu_end(fr);
L0:;
  return nu_fail(fr);
}
NU_CODE(1, "f", "", 0, 0, 1)
nu nu_code_1(nu_frame *fr)
{
  nu r0;
  r0 = nu_global(fr, 2, "f"); if (nu_bad(fr)) goto L0;
  r0 = nu_call(fr, 2, r0); if (nu_bad(fr)) goto L0;
  return nu_give(fr, r0);
L0:;
  return nu_fail(fr);
}
----
5
----
nuit: stop: Depth
====
000 run t.py 1000
NU_SCRIPT("t.py", 2, 0)
NU_CODE(0, "<module>", "", 0, 0, 1)
nu nu_code_0(nu_frame *fr)
{
  nu r0, r1, r2, r3, r4, r5;
  r0 = nu_tuple(fr, 1, nu_int("2")); if (nu_bad(fr)) goto L0;
  r1 = nu_dict(fr, 1); if (nu_bad(fr)) goto L0;
  r5 = nu_put(fr, 1, r1, nu_str("k"), nu_int("3")); if (nu_bad(fr)) goto L0;
  r3 = nu_cell(fr, 1); if (nu_bad(fr)) goto L0;
  r2 = nu_func(fr, 1, nu_int("1"), r0, r1, r3); if (nu_bad(fr)) goto L0;
  r4 = nu_global(fr, 5, "print"); if (nu_bad(fr)) goto L0;
  r5 = nu_cellset(fr, 5, r3, nu_int("100")); if (nu_bad(fr)) goto L0;
  r5 = nu_call(fr, 5, r2, nu_int("1")); if (nu_bad(fr)) goto L0;
  r5 = nu_call(fr, 5, r4, r5); if (nu_bad(fr)) goto L0;
  r1 = nu_list(fr, 6, nu_int("1"), nu_int("5")); if (nu_bad(fr)) goto L0;
  r0 = nu_dict(fr, 6); if (nu_bad(fr)) goto L0;
  r5 = nu_put(fr, 6, r0, nu_str("k"), nu_int("-7")); if (nu_bad(fr)) goto L0;
  r5 = nu_callx(fr, 6, r2, r1, r0); if (nu_bad(fr)) goto L0;
  r5 = nu_call(fr, 6, r4, r5); if (nu_bad(fr)) goto L0;
  r5 = nu_call(fr, 7, r2); if (nu_bad(fr)) goto L0;
  return nu_end(fr);
L0:;
  return nu_fail(fr);
}
NU_CODE(1, "f", "na nb kk", 0, 0, 1)
nu nu_code_1(nu_frame *fr)
{
  nu r0, r1, r2, r3;
  r0 = nu_arg(fr, 0);
  r1 = nu_arg(fr, 1);
  r2 = nu_arg(fr, 2);
  r3 = nu_free(fr, 0);
  r0 = nu_add(fr, 2, r0, r1); if (nu_bad(fr)) goto L0;
  r0 = nu_mul(fr, 2, r0, r2); if (nu_bad(fr)) goto L0;
  r3 = nu_freeget(fr, 2, r3, "c"); if (nu_bad(fr)) goto L0;
  r0 = nu_add(fr, 2, r0, r3); if (nu_bad(fr)) goto L0;
  return nu_give(fr, r0);
L0:;
  return nu_fail(fr);
}
----
1
109
58
----
Traceback (most recent call last):
  File "t.py", line 7, in <module>
TypeError
====
000 run t.py 1000
NU_SCRIPT("t.py", 2, 0)
NU_CODE(0, "<module>", "", 0, 0, 1)
nu nu_code_0(nu_frame *fr)
{
  nu r0, r1, r2;
  r0 = nu_tuple(fr, 1); if (nu_bad(fr)) goto L0;
  r1 = nu_dict(fr, 1); if (nu_bad(fr)) goto L0;
  r2 = nu_func(fr, 1, nu_int("1"), r0, r1); if (nu_bad(fr)) goto L0;
  r2 = nu_call(fr, 3, r2); if (nu_bad(fr)) goto L0;
  r0 = nu_next(fr, 4, r2); if (nu_bad(fr)) goto L0;
  return nu_end(fr);
L0:;
  return nu_fail(fr);
}
NU_CODE(1, "g", "", 1, 0, 1)
nu nu_code_1(nu_frame *fr)
{
  nu r0;
  switch (nu_resume(fr)) { case 0: goto L1; }
L1:;
  nu_save(fr, 0, nu_none);
  return nu_end(fr);
}
----
11
----
nuit: undefined: function 1, statement 1
====
000 run t.py 1000
NU_SCRIPT("t.py", 1, 0)
NU_CODE(0, "<module>", "", 0, 0, 1)
nu nu_code_0(nu_frame *fr)
{
  nu r0;
  r0 = nu_true;
  if (nu_is(r0)) goto L9;
  return nu_end(fr);
}
----
11
----
nuit: undefined: function 0, statement 1
====
000 run t.py 1000
NU_SCRIPT("t.py", 1, 0)
NU_CODE(0, "<module>", "", 0, 0, 1)
nu nu_code_0(nu_frame *fr)
{
  nu r0;
  r0 = nu_false;
  if (nu_is(r0)) goto L9;
  return nu_end(fr);
}
----
0
----
====
000 run t.py 1000
NU_SCRIPT("t.py", 1, 0)
NU_CODE(0, "<module>", "", 0, 0, 1)
nu nu_code_0(nu_frame *fr)
{
  nu r0, r1;
  r0 = r1;
  return nu_end(fr);
}
----
11
----
nuit: undefined: function 0, statement 0
"#;

#[test]
fn runs_functions_and_generators(rt: HostRuntime) -> Result<(), Fail> {
    for block in TEXTS.split("====\n") {
        assert!(rt; is_right(rt.alloc(), block, FRONT, "")?, "{block}");
    }
    Ok(())
}
