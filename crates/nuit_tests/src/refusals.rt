//! Scripts with their refusal kinds: each kind by its causes, and pairs of kinds in both orders. The rows were compared with an
//! independent reading of the rules.

use crate::calling::{called, with_line_ends};
use nuit_lib::Status;
use std::alloc::Global;
use std::test::Fail;

/// Scripts that are built. A row has the kind, with the line, and the script, in which the sign ⏎ stands for a line end.
const BUILT: &str = "Built: print(1)
Built: # c⏎⏎
Built: \u{feff}print(1)\r⏎print(2)
Built: (print)((1),)
Built: print(0x_1F); print( 7 # c⏎)⏎";

/// Statements of all kinds, and the line of the first thing that is not built.
const OTHERS: &str = "Unbuilt, line 2: print(1)⏎def f(): return 1
Unbuilt, line 1: print(1); print(1, 2)
Unbuilt, line 2: ⏎print()
Built: print(1)⏎⏎print(-1)
Built: print('a')
Built: print(True)
Built: print(print)
Unbuilt, line 1: print(*[1])
Unbuilt, line 1: print(sep=1)
Unbuilt, line 1: len(1)
Built: print
Unbuilt, line 1: print(1)(2)
Built: print(1)⏎print = 1⏎print(2)
Built: pass
Built: 1
Unbuilt, line 1: def f(): pass⏎f()
Unbuilt, line 1: for i in range(3):⏎  print(i)⏎else:⏎  pass
Built: while True:⏎  continue⏎else:⏎  pass
Unbuilt, line 1: for x in []:⏎  while x: break⏎  break
Unbuilt, line 1: g = lambda x, *y, z=1, **k: (x, y, z, k)
Unbuilt, line 1: {a: b for a, b in []}
Unbuilt, line 1: list(x for x in [])
Unbuilt, line 1: a, *b = [1]
Unbuilt, line 1: [a, *b], c = [[1], 2]
Unbuilt, line 1: x = [1]⏎x[0] = 2⏎x[0] += 1
Unbuilt, line 1: x = [1]⏎del x[0]⏎del x
Unbuilt, line 3: a = 1⏎b = 1⏎del (a, [b])
Unbuilt, line 1: def f(a, b=1, *c, d=2, **e): return a, b, c, d, e
Unbuilt, line 1: print(*[1], **{})
Unbuilt, line 1: with print as (a, b): pass
Unbuilt, line 1: with print as [a, *b]: pass
Unbuilt, line 2: x = 1⏎x.y = 2⏎x.y += 1⏎x.y.z[1].w = 3
Unbuilt, line 1: [x for x in [1] if x for y in [x] if y]
Unbuilt, line 1: [(lambda: x) for x in []]
Unbuilt, line 1: def f(x=(lambda: 1)()): return x
Unbuilt, line 1: def f(x):⏎  def g():⏎    return x⏎  return g
Unbuilt, line 2: while 1:⏎  for x in []: pass⏎  else: break
Unbuilt, line 2: x = 1⏎del y
Unbuilt, line 1: print(sep=print(sep=1), end=1)
Unbuilt, line 1: print(sep=1)(sep=2)
Unbuilt, line 1: def f(a, b):⏎  def g(a, b): pass⏎  lambda b, c: 1";

/// Scripts that come near to breaking a rule, and keep it: declarations, classes, generators, `raise`, and names.
const NEAR: &str = "Unbuilt, line 1: def f():⏎  yield 1
Unbuilt, line 1: def f():⏎  x = yield⏎  return x
Unbuilt, line 1: try:⏎  pass⏎except ValueError as e:⏎  raise⏎
Unbuilt, line 1: try:⏎  pass⏎except:⏎  try:⏎    raise⏎  finally:⏎    pass
Unbuilt, line 1: try:⏎  pass⏎except:⏎  for i in []:⏎    raise
Unbuilt, line 1: def f():⏎  global x⏎  x = 1⏎x
Unbuilt, line 1: def f():⏎  x = 1⏎  def g():⏎    nonlocal x⏎    x = 2⏎
Unbuilt, line 1: def f():⏎  x = 1⏎  class A:⏎    def g(self):⏎      nonlocal x⏎      x = 1
Unbuilt, line 1: class A:⏎  x = x
Unbuilt, line 1: class A:⏎  def f(self): return self.__x
Built: __name__
Unbuilt, line 1: class A:⏎  __slots = 1⏎  y = __slots
Unbuilt, line 1: class A:⏎  a = [(y, x) for y in [1] for x in [y]]
Unbuilt, line 1: def f():⏎  [x for x in (yield)]
Unbuilt, line 1: def f():⏎  global g⏎  def g(): pass⏎g()
Unbuilt, line 1: def f():⏎  global A⏎  class A: pass⏎A
Unbuilt, line 1: def f():⏎  global e⏎  try: pass⏎  except ValueError as e: pass⏎e
Unbuilt, line 2: x = 1⏎class A:⏎  global x⏎  x = 2⏎  def f(self): return x
Unbuilt, line 1: def f():⏎  global x⏎  def g():⏎    x = 1⏎    return x⏎  x = 1
Unbuilt, line 1: class _A:⏎  def __f(self): return self.__f
Unbuilt, line 1: class __:⏎  __x = 1⏎  y = __x
Unbuilt, line 2: x = 1⏎x.__init__, x.__class__, x.__name__
Unbuilt, line 1: abs, all, any, divmod, enumerate, filter, getattr, hasattr, input, iter, map, max, min, next, print, repr, reversed, sorted, sum, zip
Unbuilt, line 1: object, type, int, bool, str, list, tuple, dict, range, len, isinstance, issubclass, callable, setattr, ord, chr
Unbuilt, line 1: BaseException, Exception, GeneratorExit, ArithmeticError, ZeroDivisionError, AssertionError, AttributeError, EOFError, LookupError, IndexError, KeyError, NameError, UnboundLocalError, RuntimeError, NotImplementedError, StopIteration, TypeError, ValueError
Unbuilt, line 1: def f():⏎  def g(a=(yield)): pass
Unbuilt, line 1: def f():⏎  class A((yield)): pass
Unbuilt, line 1: def f():⏎  @(yield)⏎  def g(): pass
Unbuilt, line 1: global x⏎x = 1
Unbuilt, line 1: def f():⏎  x = 1⏎  class A:⏎    nonlocal x⏎    x = 2
Unbuilt, line 1: def f():⏎  [x for x in []]⏎  global x⏎  x = 1
Unbuilt, line 1: def f():⏎  lambda: x⏎  global x⏎  x = 1
Unbuilt, line 1: def f():⏎  print.x⏎  global x⏎  x = 1
Unbuilt, line 1: def f():⏎  print(x=1)⏎  global x⏎  x = 1
Unbuilt, line 1: def f():⏎  x = 1⏎  def g():⏎    def h():⏎      nonlocal x⏎      x = 2
Unbuilt, line 1: def f():⏎  global x, y, x⏎  x = y = 1
Unbuilt, line 1: lambda x: [0 for y in x]⏎def f(x):⏎  def g():⏎    nonlocal x⏎    del x
Built: ___ = 1
Unbuilt, line 2: _A__x = 1⏎class A:⏎  def f(self): return __x
Unbuilt, line 2: _B__x = 1⏎class A:⏎  class _B:⏎    def f(self): return __x
Unbuilt, line 1: try: pass⏎except:⏎  try:⏎    raise⏎  except: pass
Unbuilt, line 1: try: pass⏎except:⏎  try: pass⏎  except: pass⏎  else:⏎    raise";

/// What has no tokens, is too deep or has no tree.
const FIRST_KINDS: &str = "Token, line 1: x = $
Token, line 1: 'a
Token, line 2: x = (⏎
Token, line 1: '\\q'
Indent, line 3: if 1:⏎    1⏎  2
Indent, line 3: if 1:⏎  1⏎\t2
Indent, line 4:  ⏎⏎\tx⏎  y
Number, line 1: 1.5
Number, line 2: ⏎01
Number, line 1: x = 170141183460469231731687303715884105728
Depth, line 1: ((((((((((((((((((((((((((((((((((((((((((((((((((((((((((((((((((((((((((((((((((((((((((((((((((((()))))))))))))))))))))))))))))))))))))))))))))))))))))))))))))))))))))))))))))))))))))))))))))))))))))
Depth, line 2: ⏎[[[[[[[[[[[[[[[[[[[[[[[[[[[[[[[[[[[[[[[[[[[[[[[[[[[[[[[[[[[[[[[[[[[[[[[[[[[[[[[[[[[[[[[[[[[[[[[[[[[[[]]]]]]]]]]]]]]]]]]]]]]]]]]]]]]]]]]]]]]]]]]]]]]]]]]]]]]]]]]]]]]]]]]]]]]]]]]]]]]]]]]]]]]]]]]]]]]]]]]]]]
Grammar, line 1: import os
Grammar, line 2: x = 1⏎x = = 1
Grammar, line 1: print 1
Grammar, line 1: if 1: x: int = 1
Grammar, line 1: f'a'
Grammar, line 1: (x := 1)
Grammar, line 2: print(1)⏎x = {1}
Grammar, line 1: async def f(): pass";

/// What is no target, and stars.
const TARGETS: &str = "Target, line 1: f() = 1
Target, line 1: 1 = 2
Target, line 2: x = 1⏎x + 1 = 2
Target, line 2: (x) = 1⏎(x, 1) = 2
Target, line 1: [f()] = 1
Target, line 1: a, *b, *c = 1
Target, line 1: (a, *b, *⏎c) = 1
Target, line 2: (a, *b,⏎*⏎c) = 1
Target, line 1: *a = 1
Target, line 1: x = *[1]
Target, line 1: (*a), b = [1]
Target, line 1: print((*[1]))
Target, line 1: [(*[1])]
Target, line 2: x = 1⏎x[0:1] = 2
Target, line 2: x = 1⏎x[0:1] += 2
Target, line 1: [x] += 1
Target, line 1: f() += 1
Target, line 1: del f()
Target, line 1: del 1
Target, line 2: x = 1⏎del *x, 
Target, line 2: x = 1⏎del (*⏎x, )
Target, line 1: del (x + 1)
Target, line 1: for f() in []: pass
Target, line 1: for x[1:2] in []: pass
Target, line 1: with print as 1: pass
Target, line 1: [x for 1 in []]
Target, line 1: [x for f() in []]
Target, line 1: lambda: 1 = 2
Target, line 1: x = (y) = z() = 1
Target, line 1: -x = 1
Target, line 1: not x = 1
Target, line 1: 'a' = 1
Target, line 1: None = 1
Target, line 1: True = 1
Target, line 1: {} = 1
Target, line 1: x if 1 else 2 = 3
Target, line 2: def f():⏎  (yield) = 1
Target, line 1: a, (b, *c, *d) = 1
Target, line 2: break⏎f() = 1
Target, line 2: a.b, c[1], [d, (e, *f)] = 1⏎1 = 1
Target, line 2: x = (⏎1) = 2
Target, line 1: for *x in []: pass
Target, line 1: return *a
Target, line 2: def f():⏎  return *a";

/// `break` and `continue`.
const LOOPS: &str = "Loop, line 1: break
Loop, line 1: continue
Loop, line 2: if 1:⏎  break
Loop, line 2: while True: pass⏎else: break
Loop, line 2: for x in []: pass⏎else: continue
Loop, line 3: while 1:⏎  def f():⏎    break
Loop, line 3: while 1:⏎  class A:⏎    continue
Loop, line 2: try:⏎  break⏎finally:⏎  pass
Loop, line 2: return⏎break
Loop, line 2: def f():⏎  break
Loop, line 5: while 1:⏎  pass⏎else:⏎  while 1: break⏎  continue
Loop, line 2: with print:⏎  break";

/// `return` and `yield`.
const FUNCTIONS: &str = "Function, line 1: return 1
Function, line 2: def f():⏎  [(yield) for x in []]
Function, line 1: return
Function, line 2: class A:⏎  return 1
Function, line 3: def f():⏎  class A:⏎    return 1
Function, line 1: yield 1
Function, line 1: x = yield
Function, line 1: yield from []
Function, line 2: class A:⏎  yield 1
Function, line 1: lambda: (yield)
Function, line 2: def f():⏎  lambda: (yield)
Function, line 2: def f():⏎  [(yield 1) for x in []]
Function, line 2: def f():⏎  [1 for x in [] for y in (yield)]
Function, line 2: def f():⏎  list(1 for x in [] if (yield))
Function, line 1: def f(x=(yield)): pass
Function, line 3: def f():⏎  return 1⏎return 2
Function, line 1: [1 for x in (yield)]
Function, line 2: y⏎return";

/// `global` and `nonlocal`.
const DECLARATIONS: &str = "Declare, line 2: def f(x):⏎    global x
Declare, line 2: def f(x):⏎  nonlocal x
Declare, line 3: def f():⏎  x = 1⏎  global x
Declare, line 3: def f():⏎  x⏎  global x
Declare, line 1: nonlocal x
Declare, line 2: class A:⏎  nonlocal x
Declare, line 2: def f():⏎  nonlocal x
Declare, line 3: x = 1⏎def f():⏎  nonlocal x
Declare, line 3: def f():⏎  global x⏎  nonlocal x
Declare, line 5: def f():⏎  x = 1⏎  def g():⏎    nonlocal x⏎    global x
Declare, line 5: def f():⏎  global x⏎  x = 1⏎  def g():⏎    nonlocal x
Declare, line 2: x = 1⏎global x
Declare, line 4: def f():⏎  global x⏎  x = 1⏎  global x
Declare, line 4: class A:⏎  x = 1⏎  def f(self):⏎    nonlocal x
Declare, line 3: def f():⏎  def x(): pass⏎  global x
Declare, line 3: def f():⏎  class x: pass⏎  global x
Declare, line 3: def f():⏎  for x in []: pass⏎  global x
Declare, line 3: def f():⏎  del x⏎  global x
Declare, line 3: def f():⏎  [y for y in x]⏎  global x
Declare, line 3: def f():⏎  lambda y=x: y⏎  global x⏎  x = 1
Declare, line 3: def f():⏎  x.y = 1⏎  global x
Declare, line 4: class A:⏎  def f(self):⏎    _A__x = 1⏎    global __x
Declare, line 2: y⏎nonlocal x
Declare, line 5: def f():⏎  x = 1⏎  def g():⏎    x⏎    nonlocal x
Declare, line 4: def f():⏎  [0 for x in []]⏎  def g():⏎    nonlocal x";

/// Names that no scope and no table has, and names between double underscores.
const NAMES: &str = "Name, line 1: y
Name, line 1: x = y
Name, line 1: def f(): return y
Name, line 2: def f():⏎  global x
Name, line 2: def f():⏎  global x⏎  return x
Name, line 2: class A:⏎  def f(self): return z
Name, line 3: class A:⏎  z = 1⏎  def f(self): return z
Name, line 1: open
Name, line 1: __doc__
Name, line 1: __foo__ = 1
Name, line 2: x = 1⏎x.__foo__
Name, line 1: print(__foo__=1)
Name, line 1: def __foo__(): pass
Name, line 1: class __foo__: pass
Name, line 1: def f(__foo__): pass
Name, line 2: try: pass⏎except ValueError as __foo__: pass
Name, line 1: global __foo__
Name, line 1: _____ = 1
Name, line 3: class A:⏎  __x = 1⏎_A__x
Name, line 2: class A:⏎  def f(self): return __x
Name, line 3: __x = 1⏎class A:⏎  def f(self): return __x
Name, line 2: class A:⏎  def f(self): return __class__
Name, line 1: super
Name, line 2: raise⏎y
Name, line 3: def f():⏎  x = 1⏎x
Name, line 2: [x for x in []]⏎x
Name, line 3: for i in []: pass⏎i⏎j
Name, line 1: def f(a=b): pass
Name, line 1: @d⏎def f(): pass
Name, line 1: class A(B): pass
Name, line 1: lambda: q
Name, line 1: f(x for x in y)
Name, line 2: def f():⏎  def g(): return h
Name, line 1: id
Name, line 1: hash
Name, line 1: _nu_no
Name, line 1: round
Name, line 1: pow
Name, line 2: x = 1⏎x.__add__
Name, line 1: import_
Name, line 2: class A:⏎  x = y
Name, line 1: x.__aé__ if print else x
Name, line 1: __é__ = 1
Name, line 1: lambda __a__: 1
Name, line 1: def f(*__a__): pass
Name, line 1: def f(**__a__): pass";

/// A bare `raise`.
const RAISES: &str = "Raise, line 1: raise
Raise, line 2: def f():⏎  raise
Raise, line 2: try:⏎  raise⏎except: pass
Raise, line 4: try: pass⏎except: pass⏎else:⏎  raise
Raise, line 3: try: pass⏎finally:⏎  raise
Raise, line 5: try: pass⏎except:⏎  try: pass⏎  finally:⏎    raise
Raise, line 4: try: pass⏎except:⏎  def f():⏎    raise
Raise, line 4: try: pass⏎except:⏎  class A:⏎    raise
Raise, line 2: def f(a, a): pass⏎raise
Raise, line 3: try: pass⏎except: pass⏎raise
Raise, line 5: try: pass⏎except:⏎  while 1:⏎    with print: raise⏎else: raise";

/// Parameters and keyword arguments.
const REPEATS: &str = "Repeat, line 1: def f(a, a): pass
Repeat, line 1: def f(a, *a): pass
Repeat, line 1: def f(a, *, a): pass
Repeat, line 1: def f(a, **a): pass
Repeat, line 1: lambda x, x: 1
Repeat, line 1: print(sep=1, sep=2)
Repeat, line 1: print(sep=print(sep=1, end=1, sep=1))
Repeat, line 1: print(a=1, b=2)(a=1, a=2)
Repeat, line 2: class A:⏎  def f(self, __a, _A__a): pass
Repeat, line 2: class A:⏎  print(__a=1, _A__a=2)
Repeat, line 1: def f(a, /, b, a): pass
Repeat, line 3: print(sep=1,⏎ end=2,⏎ sep=3)
Repeat, line 3: def f(a,⏎ b,⏎ a): pass
Repeat, line 1: print(*[], sep=1, **{}, sep=2)";

/// Scripts with more than one kind, in both orders.
const ORDER: &str = "Token, line 1: $⏎1.5
Number, line 1: 1.5⏎$
Indent, line 3: if 1:⏎  1⏎ 2⏎$
Token, line 1: $⏎if 1:⏎  1⏎ 2
Indent, line 3: if 1:⏎  1⏎ 1.5
Number, line 1: 1.5⏎if 1:⏎  1⏎ 2
Number, line 2: ((((((((((((((((((((((((((((((((((((((((((((((((((((((((((((((((((((((((((((((((((((((((((((((((((((()))))))))))))))))))))))))))))))))))))))))))))))))))))))))))))))))))))))))))))))))))))))))))))))))))))⏎1.5
Number, line 1: 1.5⏎((((((((((((((((((((((((((((((((((((((((((((((((((((((((((((((((((((((((((((((((((((((((((((((((((((()))))))))))))))))))))))))))))))))))))))))))))))))))))))))))))))))))))))))))))))))))))))))))))))))))))
Depth, line 2: import os⏎((((((((((((((((((((((((((((((((((((((((((((((((((((((((((((((((((((((((((((((((((((((((((((((((((((()))))))))))))))))))))))))))))))))))))))))))))))))))))))))))))))))))))))))))))))))))))))))))))))))))))
Depth, line 1: ((((((((((((((((((((((((((((((((((((((((((((((((((((((((((((((((((((((((((((((((((((((((((((((((((((()))))))))))))))))))))))))))))))))))))))))))))))))))))))))))))))))))))))))))))))))))))))))))))))))))))⏎import os
Grammar, line 1: import os⏎f() = 1
Grammar, line 2: f() = 1⏎import os
Target, line 1: f() = 1⏎break
Target, line 2: break⏎f() = 1
Loop, line 1: break⏎return
Loop, line 2: return⏎break
Function, line 1: return⏎nonlocal x
Function, line 2: nonlocal x⏎return
Declare, line 1: nonlocal x⏎y
Declare, line 2: y⏎nonlocal x
Name, line 1: y⏎raise
Name, line 2: raise⏎y
Raise, line 1: raise⏎def f(a, a): pass
Raise, line 2: def f(a, a): pass⏎raise
Repeat, line 1: def f(a, a): pass⏎pass
Repeat, line 2: pass⏎def f(a, a): pass
Target, line 2: def f(a, a): pass⏎f() = 1
Target, line 2: y⏎f() = 1
Loop, line 2: raise⏎break
Function, line 2: y⏎return
Declare, line 2: def f(a, a): pass⏎nonlocal x
Grammar, line 2: def f(a, a): pass⏎import os
Target, line 8: pass⏎def f(a, a): pass⏎raise⏎y⏎nonlocal x⏎return⏎break⏎f() = 1
Loop, line 7: pass⏎def f(a, a): pass⏎raise⏎y⏎nonlocal x⏎return⏎break";

// Whether the script of a row is built, or refused with its kind.
fn is_right(alloc: Global, row: &str) -> Result<bool, Fail> {
    let Some((kind, script)) = row.split_once(": ") else {
        return Ok(false);
    };
    let message = format!(in alloc; "nuit: refused: {kind}\n")?;
    let script = with_line_ends(alloc, script)?;
    let (status, _out, err) = called(alloc, "000 build t.py", script.as_bytes())?;
    if kind == "Built" {
        return Ok(status == Status::Done && err.bytes().is_empty());
    }
    Ok(status == Status::Refused && err.bytes() == message.as_bytes())
}

#[test]
fn each_script_has_its_kind(rt: HostRuntime) -> Result<(), Fail> {
    let tables = [
        BUILT,
        OTHERS,
        NEAR,
        FIRST_KINDS,
        TARGETS,
        LOOPS,
        FUNCTIONS,
        DECLARATIONS,
        NAMES,
        RAISES,
        REPEATS,
        ORDER,
    ];
    for table in tables {
        for row in table.lines() {
            assert!(rt; is_right(rt.alloc(), row)?, "{row}");
        }
    }
    Ok(())
}
