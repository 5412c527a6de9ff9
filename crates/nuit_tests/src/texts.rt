//! C texts made by hand: what their runs print, and how they end; and where no program stands.

use crate::calling::{called, is_right, with_line_ends};
use nuit_lib::Status;
use std::alloc::{AllocError, Global};
use std::test::Fail;

/// Before the body of the only function.
const FRONT: &str = r#"/* nuit C 1 */
#include "nuit1.h"
NU_SCRIPT("t.py", 1, 0)
NU_CODE(0, "<module>", "", 0, 0, 1)
nu nu_code_0(nu_frame *fr)
{
"#;

/// Bodies: a loop without end; one that passes by zero; exceptions, one of them caught and raised again; stops; a name that is not
/// bound; a value that the module returns; statements of which nothing is said; a line that can't be written behind one that was; a
/// traceback, which is one put; lists and tuples, with their order; texts; a class, its instance and an
/// exception; a dict of 100,000 keys.
const BODIES: &str = r#"000 run t.py 8
  nu r0, r1;
L1:;
  r0 = nu_global(fr, 1, "print"); if (nu_bad(fr)) goto L0;
  r1 = nu_call(fr, 1, r0, nu_int("1")); if (nu_bad(fr)) goto L0;
  if (nu_is(nu_true)) goto L1;
L0:;
  return nu_fail(fr);
----
6
1
1
1
----
nuit: steps
====
000 run t.py 1000
  nu r0, r1;
  r0 = nu_int("5");
L1:;
  r1 = nu_truth(fr, 2, r0); if (nu_bad(fr)) goto L0;
  if (nu_is(r1)) goto L2;
  return nu_end(fr);
L2:;
  r0 = nu_sub(fr, 2, r0, nu_int("2")); if (nu_bad(fr)) goto L0;
  goto L1;
L0:;
  return nu_fail(fr);
----
6
----
nuit: steps
====
000 run t.py 9
  nu r0;
  r0 = nu_floordiv(fr, 1, nu_int("1"), nu_int("0")); if (nu_bad(fr)) goto L0;
  return nu_end(fr);
L0:;
  return nu_fail(fr);
----
1
----
Traceback (most recent call last):
  File "t.py", line 1, in <module>
ZeroDivisionError
====
000 run t.py 9
  nu r0, r1;
  r0 = nu_mod(fr, 1, nu_int("1"), nu_int("0")); if (nu_bad(fr)) goto L0;
  return nu_end(fr);
L0:;
  r1 = nu_caught(fr);
  r0 = nu_global(fr, 2, "print"); if (nu_bad(fr)) goto L1;
  r0 = nu_call(fr, 2, r0, nu_str("a\303\251")); if (nu_bad(fr)) goto L1;
  nu_again(fr, r1); goto L1;
L1:;
  return nu_fail(fr);
----
1
aé
----
Traceback (most recent call last):
  File "t.py", line 1, in <module>
ZeroDivisionError
====
000 run t.py 9
  nu r0;
  r0 = nu_mul(fr, 1, nu_str("a"), nu_int("16777217")); if (nu_bad(fr)) goto L0;
L0:;
  return nu_fail(fr);
----
5
----
nuit: stop: Size
====
000 run t.py 9
  nu r0;
  r0 = nu_pow(fr, 1, nu_int("2"), nu_int("-1")); if (nu_bad(fr)) goto L0;
L0:;
  return nu_fail(fr);
----
5
----
nuit: stop: Float
====
000 run t.py 9
  nu r0;
  r0 = nu_neg(fr, 1, nu_int("-170141183460469231731687303715884105728")); if (nu_bad(fr)) goto L0;
L0:;
  return nu_fail(fr);
----
5
----
nuit: stop: Int
====
000 run t.py 9
  nu r0;
  r0 = nu_global(fr, 1, "print"); if (nu_bad(fr)) goto L0;
  r0 = nu_call(fr, 1, r0); if (nu_bad(fr)) goto L0;
L0:;
  return nu_fail(fr);
----
5
----
nuit: stop: Unbuilt
====
000 run t.py 9
  nu r0;
  r0 = nu_global(fr, 3, "x"); if (nu_bad(fr)) goto L0;
L0:;
  return nu_fail(fr);
----
1
----
Traceback (most recent call last):
  File "t.py", line 3, in <module>
NameError
====
000 run t.py 9
  return nu_give(fr, nu_str("a"));
----
0
----
====
000 run t.py 9
  nu r0, r1;
  r0 = r1;
  return nu_end(fr);
----
11
----
nuit: undefined: function 0, statement 0
====
000 run t.py 9
----
11
----
nuit: undefined: function 0, statement 0
====
000 run t.py 9
  goto L9;
----
11
----
nuit: undefined: function 0, statement 0
====
000 run t.py 9
  if (nu_is(nu_int("1"))) goto L0;
L0:;
  return nu_end(fr);
----
11
----
nuit: undefined: function 0, statement 0
====
000 run t.py 9
  nu r0;
  r0 = nu_none;
  r0 = nu_caught(fr);
----
11
----
nuit: undefined: function 0, statement 1
====
000 run t.py 9
  nu_again(fr, nu_none); goto L0;
L0:;
  return nu_fail(fr);
----
11
----
nuit: undefined: function 0, statement 0
====
000 run t.py 9
  return nu_fail(fr);
----
11
----
nuit: undefined: function 0, statement 0
====
000 run t.py 9
  nu r0;
  r0 = nu_unset;
  return nu_give(fr, r0);
----
11
----
nuit: undefined: function 0, statement 1
====
000 run t.py 9
  nu r0;
  r0 = nu_unset;
  r0 = nu_truth(fr, 1, r0); if (nu_bad(fr)) goto L0;
L0:;
  return nu_fail(fr);
----
11
----
nuit: undefined: function 0, statement 1
====
000 run t.py 9
  nu r0;
  r0 = nu_arg(fr, 0);
----
11
----
nuit: undefined: function 0, statement 0
====
000 run t.py 9
  nu r0;
  r0 = nu_free(fr, 0);
----
11
----
nuit: undefined: function 0, statement 0
====
000 run t.py 9
  nu r0;
  r0 = nu_load(fr, 0);
----
11
----
nuit: undefined: function 0, statement 0
====
000 run t.py 9
  nu_save(fr, 0, nu_none);
----
11
----
nuit: undefined: function 0, statement 0
====
000 run t.py 9
  nu r0;
  r0 = nu_sent(fr, 1); if (nu_bad(fr)) goto L0;
L0:;
  return nu_fail(fr);
----
11
----
nuit: undefined: function 0, statement 0
====
000 run t.py 9
  switch (nu_resume(fr)) { case 0: goto L0; }
L0:;
  return nu_fail(fr);
----
11
----
nuit: undefined: function 0, statement 0
====
000 run t.py 9
  return nu_pause(fr, 0, nu_none);
----
11
----
nuit: undefined: function 0, statement 0
====
020 run t.py 8
  nu r0, r1;
L1:;
  r0 = nu_global(fr, 1, "print"); if (nu_bad(fr)) goto L0;
  r1 = nu_call(fr, 1, r0, nu_int("1")); if (nu_bad(fr)) goto L0;
  if (nu_is(nu_true)) goto L1;
L0:;
  return nu_fail(fr);
----
8
1
----
====
002 run t.py 9
  nu r0;
  r0 = nu_floordiv(fr, 1, nu_int("1"), nu_int("0")); if (nu_bad(fr)) goto L0;
  return nu_end(fr);
L0:;
  return nu_fail(fr);
----
1
----
Traceback (most recent call last):
  File "t.py", line 1, in <module>
ZeroDivisionError
====
000 run t.py 1000
  nu r0, r1, r2, r3, r4, r5, r6, r7, r8, r9;
  r0 = nu_list(fr, 1, nu_int("3"), nu_int("1"), nu_int("2")); if (nu_bad(fr)) goto L0;
  r1 = nu_push(fr, 1, r0, nu_int("5")); if (nu_bad(fr)) goto L0;
  r1 = nu_setindex(fr, 1, r0, nu_int("0"), nu_int("4")); if (nu_bad(fr)) goto L0;
  r1 = nu_index(fr, 1, r0, nu_int("-1")); if (nu_bad(fr)) goto L0;
  r9 = nu_global(fr, 1, "print"); if (nu_bad(fr)) goto L0;
  r9 = nu_call(fr, 1, r9, r1); if (nu_bad(fr)) goto L0;
  r1 = nu_slice(fr, 1, r0, nu_none, nu_none, nu_int("-2")); if (nu_bad(fr)) goto L0;
  r2 = nu_attr(fr, 1, r0, "append"); if (nu_bad(fr)) goto L0;
  r2 = nu_call(fr, 1, r2, nu_int("9")); if (nu_bad(fr)) goto L0;
  r2 = nu_attr(fr, 1, r0, "pop"); if (nu_bad(fr)) goto L0;
  r2 = nu_call(fr, 1, r2, nu_int("0")); if (nu_bad(fr)) goto L0;
  r9 = nu_global(fr, 1, "print"); if (nu_bad(fr)) goto L0;
  r9 = nu_call(fr, 1, r9, r2); if (nu_bad(fr)) goto L0;
  r3 = nu_tuple(fr, 1, r1, r0); if (nu_bad(fr)) goto L0;
  r3 = nu_add(fr, 1, r3, r3); if (nu_bad(fr)) goto L0;
  r2 = nu_native(fr, 1, "len"); if (nu_bad(fr)) goto L0;
  r2 = nu_call(fr, 1, r2, r3); if (nu_bad(fr)) goto L0;
  r9 = nu_global(fr, 1, "print"); if (nu_bad(fr)) goto L0;
  r9 = nu_call(fr, 1, r9, r2); if (nu_bad(fr)) goto L0;
  r2 = nu_global(fr, 1, "_nu_order"); if (nu_bad(fr)) goto L0;
  r4 = nu_call(fr, 1, r2, r0, nu_false); if (nu_bad(fr)) goto L0;
  r5 = nu_iter(fr, 1, r4); if (nu_bad(fr)) goto L0;
L1:;
  r6 = nu_next(fr, 1, r5); if (nu_bad(fr)) goto L2;
  r9 = nu_global(fr, 1, "print"); if (nu_bad(fr)) goto L0;
  r9 = nu_call(fr, 1, r9, r6); if (nu_bad(fr)) goto L0;
  goto L1;
L2:;
  r7 = nu_caught(fr);
  r7 = nu_classof(fr, 1, r7); if (nu_bad(fr)) goto L0;
  r7 = nu_attr(fr, 1, r7, "__name__"); if (nu_bad(fr)) goto L0;
  r9 = nu_global(fr, 1, "print"); if (nu_bad(fr)) goto L0;
  r9 = nu_call(fr, 1, r9, r7); if (nu_bad(fr)) goto L0;
  r6 = nu_delindex(fr, 1, r0, nu_int("0")); if (nu_bad(fr)) goto L0;
  r6 = nu_in(fr, 1, nu_int("9"), r0); if (nu_bad(fr)) goto L0;
  r9 = nu_global(fr, 1, "print"); if (nu_bad(fr)) goto L0;
  r9 = nu_call(fr, 1, r9, r6); if (nu_bad(fr)) goto L0;
  r6 = nu_lt(fr, 1, r1, r0); if (nu_bad(fr)) goto L0;
  r9 = nu_global(fr, 1, "print"); if (nu_bad(fr)) goto L0;
  r9 = nu_call(fr, 1, r9, r6); if (nu_bad(fr)) goto L0;
  r6 = nu_eq(fr, 1, r0, r0); if (nu_bad(fr)) goto L0;
  r9 = nu_global(fr, 1, "print"); if (nu_bad(fr)) goto L0;
  r9 = nu_call(fr, 1, r9, r6); if (nu_bad(fr)) goto L0;
  return nu_end(fr);
L0:;
  return nu_fail(fr);
----
0
5
4
4
0
1
2
3
StopIteration
True
False
True
----
====
000 run t.py 1000
  nu r0, r1, r2, r3, r4, r5, r6, r7, r8, r9;
  r0 = nu_str("a,b,,c");
  r1 = nu_attr(fr, 1, r0, "split"); if (nu_bad(fr)) goto L0;
  r1 = nu_call(fr, 1, r1, nu_str(",")); if (nu_bad(fr)) goto L0;
  r2 = nu_str("-");
  r2 = nu_attr(fr, 1, r2, "join"); if (nu_bad(fr)) goto L0;
  r2 = nu_call(fr, 1, r2, r1); if (nu_bad(fr)) goto L0;
  r9 = nu_global(fr, 1, "print"); if (nu_bad(fr)) goto L0;
  r9 = nu_call(fr, 1, r9, r2); if (nu_bad(fr)) goto L0;
  r3 = nu_slice(fr, 1, r0, nu_int("1"), nu_none, nu_int("2")); if (nu_bad(fr)) goto L0;
  r9 = nu_global(fr, 1, "print"); if (nu_bad(fr)) goto L0;
  r9 = nu_call(fr, 1, r9, r3); if (nu_bad(fr)) goto L0;
  r3 = nu_attr(fr, 1, r0, "replace"); if (nu_bad(fr)) goto L0;
  r3 = nu_call(fr, 1, r3, nu_str(","), nu_str("\303\251")); if (nu_bad(fr)) goto L0;
  r9 = nu_global(fr, 1, "print"); if (nu_bad(fr)) goto L0;
  r9 = nu_call(fr, 1, r9, r3); if (nu_bad(fr)) goto L0;
  r4 = nu_global(fr, 1, "_nu_quote"); if (nu_bad(fr)) goto L0;
  r4 = nu_call(fr, 1, r4, nu_str("a\012b")); if (nu_bad(fr)) goto L0;
  r9 = nu_global(fr, 1, "print"); if (nu_bad(fr)) goto L0;
  r9 = nu_call(fr, 1, r9, r4); if (nu_bad(fr)) goto L0;
  r4 = nu_global(fr, 1, "_nu_text"); if (nu_bad(fr)) goto L0;
  r4 = nu_call(fr, 1, r4, nu_int("-7")); if (nu_bad(fr)) goto L0;
  r9 = nu_global(fr, 1, "print"); if (nu_bad(fr)) goto L0;
  r9 = nu_call(fr, 1, r9, r4); if (nu_bad(fr)) goto L0;
  r4 = nu_native(fr, 1, "int"); if (nu_bad(fr)) goto L0;
  r4 = nu_call(fr, 1, r4, nu_str(" 1_0 ")); if (nu_bad(fr)) goto L0;
  r9 = nu_global(fr, 1, "print"); if (nu_bad(fr)) goto L0;
  r9 = nu_call(fr, 1, r9, r4); if (nu_bad(fr)) goto L0;
  r4 = nu_global(fr, 1, "chr"); if (nu_bad(fr)) goto L0;
  r4 = nu_call(fr, 1, r4, nu_int("8364")); if (nu_bad(fr)) goto L0;
  r9 = nu_global(fr, 1, "print"); if (nu_bad(fr)) goto L0;
  r9 = nu_call(fr, 1, r9, r4); if (nu_bad(fr)) goto L0;
  return nu_end(fr);
L0:;
  return nu_fail(fr);
----
0
a-b--c
,,c
aébééc
'a\nb'
-7
10
€
----
====
000 run t.py 1000
  nu r0, r1, r2, r3, r4, r5, r6, r7, r8, r9;
  r0 = nu_space(fr, 1); if (nu_bad(fr)) goto L0;
  r1 = nu_spaceset(fr, 1, r0, "kind", nu_str("animal")); if (nu_bad(fr)) goto L0;
  r1 = nu_global(fr, 1, "object"); if (nu_bad(fr)) goto L0;
  r1 = nu_class(fr, 1, "Dog", r1, r0); if (nu_bad(fr)) goto L0;
  r2 = nu_call(fr, 1, r1); if (nu_bad(fr)) goto L0;
  r3 = nu_setattr(fr, 1, r2, "name", nu_str("Rex")); if (nu_bad(fr)) goto L0;
  r3 = nu_attr(fr, 1, r2, "name"); if (nu_bad(fr)) goto L0;
  r9 = nu_global(fr, 1, "print"); if (nu_bad(fr)) goto L0;
  r9 = nu_call(fr, 1, r9, r3); if (nu_bad(fr)) goto L0;
  r3 = nu_attr(fr, 1, r2, "kind"); if (nu_bad(fr)) goto L0;
  r9 = nu_global(fr, 1, "print"); if (nu_bad(fr)) goto L0;
  r9 = nu_call(fr, 1, r9, r3); if (nu_bad(fr)) goto L0;
  r3 = nu_global(fr, 1, "isinstance"); if (nu_bad(fr)) goto L0;
  r3 = nu_call(fr, 1, r3, r2, r1); if (nu_bad(fr)) goto L0;
  r9 = nu_global(fr, 1, "print"); if (nu_bad(fr)) goto L0;
  r9 = nu_call(fr, 1, r9, r3); if (nu_bad(fr)) goto L0;
  r3 = nu_global(fr, 1, "ValueError"); if (nu_bad(fr)) goto L0;
  r4 = nu_call(fr, 1, r3, nu_str("wrong")); if (nu_bad(fr)) goto L0;
  r5 = nu_exc(fr, 1, r4); if (nu_bad(fr)) goto L0;
  r6 = nu_raise(fr, 1, r5); if (nu_bad(fr)) goto L2;
L2:;
  r7 = nu_caught(fr);
  r6 = nu_match(fr, 1, r7, r3); if (nu_bad(fr)) goto L0;
  r9 = nu_global(fr, 1, "print"); if (nu_bad(fr)) goto L0;
  r9 = nu_call(fr, 1, r9, r6); if (nu_bad(fr)) goto L0;
  r6 = nu_attr(fr, 1, r7, "args"); if (nu_bad(fr)) goto L0;
  r6 = nu_index(fr, 1, r6, nu_int("0")); if (nu_bad(fr)) goto L0;
  r9 = nu_global(fr, 1, "print"); if (nu_bad(fr)) goto L0;
  r9 = nu_call(fr, 1, r9, r6); if (nu_bad(fr)) goto L0;
  r6 = nu_delattr(fr, 1, r2, "name"); if (nu_bad(fr)) goto L0;
  r6 = nu_attr(fr, 1, r2, "name"); if (nu_bad(fr)) goto L0;
  return nu_end(fr);
L0:;
  return nu_fail(fr);
----
1
Rex
animal
True
True
wrong
----
Traceback (most recent call last):
  File "t.py", line 1, in <module>
AttributeError
====
000 run t.py 1000000
  nu r0, r1, r2, r3;
  r0 = nu_dict(fr, 1); if (nu_bad(fr)) goto L0;
  r1 = nu_int("0");
L1:;
  r2 = nu_lt(fr, 1, r1, nu_int("100000")); if (nu_bad(fr)) goto L0;
  if (nu_is(r2)) goto L2;
  goto L3;
L2:;
  r2 = nu_mul(fr, 1, r1, r1); if (nu_bad(fr)) goto L0;
  r3 = nu_setindex(fr, 1, r0, r1, r2); if (nu_bad(fr)) goto L0;
  r1 = nu_add(fr, 1, r1, nu_int("1")); if (nu_bad(fr)) goto L0;
  goto L1;
L3:;
  r2 = nu_native(fr, 2, "len"); if (nu_bad(fr)) goto L0;
  r2 = nu_call(fr, 2, r2, r0); if (nu_bad(fr)) goto L0;
  r3 = nu_global(fr, 2, "print"); if (nu_bad(fr)) goto L0;
  r2 = nu_call(fr, 2, r3, r2); if (nu_bad(fr)) goto L0;
  r2 = nu_index(fr, 3, r0, nu_int("77777")); if (nu_bad(fr)) goto L0;
  r2 = nu_call(fr, 3, r3, r2); if (nu_bad(fr)) goto L0;
  return nu_end(fr);
L0:;
  return nu_fail(fr);
----
0
100000
6049261729
----
"#;

#[test]
fn runs_texts_made_by_hand(rt: HostRuntime) -> Result<(), Fail> {
    for block in BODIES.split("====\n") {
        assert!(rt; is_right(rt.alloc(), block, FRONT, "}\n")?, "{block}");
    }
    Ok(())
}

/// A text in which every form stands.
const FORMS: &str = r#"/* nuit C 1 */
#include "nuit1.h"
NU_SCRIPT("t.py", 1, 1)
NU_CODE(0, "<module>", "pa nb sc kd de", 0, 0, 1)
nu nu_code_0(nu_frame *fr)
{
  nu r0, r1;
  r0 = r1;
  r0 = nu_unset;
  r0 = nu_arg(fr, 0);
  r1 = nu_free(fr, 1);
  r0 = nu_load(fr, 2);
  r0 = nu_caught(fr);
  r1 = nu_sent(fr, 0); if (nu_bad(fr)) goto L0;
  r0 = nu_call(fr, 7, r1, nu_none, nu_true, nu_false, nu_int("-5"), nu_str("\303\244 a")); if (nu_bad(fr)) goto L0;
L0:;
L1:;
  goto L18446744073709551615;
  if (nu_is(r0)) goto L1;
  nu_again(fr, r0); goto L1;
  return nu_give(fr, r1);
  return nu_fail(fr);
  switch (nu_resume(fr)) { case 0: goto L0; case 1: goto L1; }
  nu_save(fr, 0, r0);
  return nu_pause(fr, 1, nu_str(""));
  return nu_end(fr);
L2:;
}
NU_CODE(1, "f", "", 0, 3, 4294967295)
nu nu_code_1(nu_frame *fr)
{
}
"#;

/// A place, counted from 0; the line in which no program can stand any more, counted from 1, or 0 where one stands; and what stands in
/// the place of that line of the text, in which the sign ⏎ stands for a line end.
const OTHERS: &str = r#"2 0|NU_SCRIPT("\042\077\134\012\303\244", 1, 1)⏎
2 0|NU_SCRIPT("", 2, 0)⏎
2 3|NU_SCRIPT("t.py", 0, 2)⏎
2 3|NU_SCRIPT("t.py", 1, 65535)⏎
2 3|NU_SCRIPT("t.py", 4294967296, 1)⏎
2 29|NU_SCRIPT("t.py", 1, 0)⏎
2 33|NU_SCRIPT("t.py", 1, 2)⏎
2 3|NU_SCRIPT("t.py", 01, 1)⏎
2 3|NU_SCRIPT("\164.py", 1, 1)⏎
2 3|NU_SCRIPT("\42", 1, 1)⏎
2 3|NU_SCRIPT("\477", 1, 1)⏎
2 3|NU_SCRIPT("\303", 1, 1)⏎
2 3|NU_SCRIPT("?", 1, 1)⏎
3 4|NU_CODE(1, "<module>", "", 0, 0, 1)⏎
3 0|NU_CODE(0, "<module>", "", 0, 18446744073709551615, 1)⏎
3 4|NU_CODE(0, "<module>", "", 0, 18446744073709551616, 1)⏎
3 4|NU_CODE(0, "<module>", "", 0, 0, 0)⏎
3 0|NU_CODE(0, "<module>", "", 1, 0, 1)⏎
3 4|NU_CODE(0, "<module>", "nb pa", 0, 0, 1)⏎
3 4|NU_CODE(0, "<module>", "sa sb", 0, 0, 1)⏎
3 4|NU_CODE(0, "<module>", "da db", 0, 0, 1)⏎
3 4|NU_CODE(0, "<module>", "ka sb", 0, 0, 1)⏎
3 0|NU_CODE(0, "<module>", "ka kb", 0, 0, 1)⏎
3 4|NU_CODE(0, "<module>", "n", 0, 0, 1)⏎
3 4|NU_CODE(0, "<module>", "na  nb", 0, 0, 1)⏎
3 4|NU_CODE(0, "<module>", "na ", 0, 0, 1)⏎
3 4|NU_CODE(0, "<module>", "xa", 0, 0, 1)⏎
3 4|NU_CODE(0, "<module>", "n\303", 0, 0, 1)⏎
6 8|  nu r0;⏎
6 7|
6 7|  nu r0, r2;⏎
6 0|  nu r0, r1, r2;⏎
6 7|  nu r0, r1;⏎  nu r0;⏎
7 8|  r2 = r1;⏎
7 8|  r0 = r2;⏎
7 8|  r0 = r01;⏎
7 8|  r0 = nu_int("-0");⏎
7 8|  r0 = nu_int("00");⏎
7 0|  r0 = nu_int("170141183460469231731687303715884105727");⏎
7 8|  r0 = nu_int("170141183460469231731687303715884105728");⏎
7 0|  r0 = nu_int("-170141183460469231731687303715884105728");⏎
7 8|  r0 = nu_int("-170141183460469231731687303715884105729");⏎
7 8|  r0 =  r1;⏎
7 8|  r0 = nu_none5;⏎
9 10|  r0 = nu_arg(fr, 18446744073709551616);⏎
13 14|  r1 = nu_sent(fr, 4294967296); if (nu_bad(fr)) goto L0;⏎
14 15|  r0 = nu_call(fr, 7); if (nu_bad(fr)) goto L0;⏎
14 15|  r0 = nu_call(fr, 7, "f"); if (nu_bad(fr)) goto L0;⏎
14 0|  r0 = nu_global(fr, 7, "f"); if (nu_bad(fr)) goto L0;⏎
14 15|  r0 = nu_global(fr, 7, r0); if (nu_bad(fr)) goto L0;⏎
14 15|  r0 = nu_global(fr, 7, "f"5); if (nu_bad(fr)) goto L0;⏎
14 15|  r0 = nu_add(fr, 7, r0); if (nu_bad(fr)) goto L0;⏎
14 15|  r0 = nu_add(fr, 7, r0, r1, r1); if (nu_bad(fr)) goto L0;⏎
14 15|  r0 = nu_adds(fr, 7, r0, r1); if (nu_bad(fr)) goto L0;⏎
14 0|  r0 = nu_tuple(fr, 7, r0, r1); if (nu_bad(fr)) goto L0;⏎
16 17|L0:;⏎
16 17|L01:;⏎
22 23|  switch (nu_resume(fr)) { }⏎
22 23|  switch (nu_resume(fr)) { case 1: goto L0; }⏎
27 28|
31 32|}
31 33|}⏎⏎
31 33|}⏎NU_CODE(2, "g", "", 0, 0, 1)⏎"#;

// The text of every form with another line in one place.
fn with_line(alloc: Global, place: usize, other: &str) -> Result<String, AllocError> {
    let mut text = String::new(alloc);
    for (at, line) in FORMS.lines().enumerate() {
        if at == place {
            text.push_str(other)?;
        } else {
            text.push_str(line)?;
            text.push_str(
                "
",
            )?;
        }
    }
    Ok(text)
}

// Whether the text of a row is run, or refused in its line.
fn is_read_so(alloc: Global, row: &str) -> Result<bool, Fail> {
    let Some((numbers, other)) = row.split_once('|') else {
        return Ok(false);
    };
    let Some((place, line)) = numbers.split_once(' ') else {
        return Ok(false);
    };
    let other = with_line_ends(alloc, other)?;
    let text = with_line(alloc, place.parse::<usize>()?, other.as_str())?;
    let (status, _out, err) = called(alloc, "000 run t.py 0", text.as_bytes())?;
    if line == "0" {
        return Ok(status == Status::Steps);
    }
    let message = format!(in alloc;
        "nuit: not C, line {line}
"
    )?;
    Ok(status == Status::NotC && err.bytes() == message.as_bytes())
}

#[test]
fn the_line_of_what_is_not_c_is_named(rt: HostRuntime) -> Result<(), Fail> {
    for row in OTHERS.lines() {
        assert!(rt; is_read_so(rt.alloc(), row)?, "{row}");
    }
    Ok(())
}
