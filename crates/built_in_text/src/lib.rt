//! The functions of Python that are written in Python: the text of the module of built-in names, which runs before a script.
#![tactic(auto)]

ghost use Rattle.std.specs.Prelude.{◌≡◌, ◌≤◌, length};
ghost use Rattle.built_in_text.specs.BuiltIn.{built_in};

/// The text of the module of built-in names. It is no longer than a script may be, and takes no memory.
#[tactic(auto, unfolding(crate::specs::BuiltIn::built_in))]
pub fn built_in_text() -> &'static str
    ensures text { result.now ≡ built_in }
    ensures length { length result.now ≤ 262144 }
{
    BUILT_IN
}

/// The text as it stands. Contracts name it by `built_in`, which proofs don't unfold.
const BUILT_IN: &str = r#"_nu_seen = []
_nu_no = []
def print(*args, sep=" ", end="\n"):
  if sep is None: sep = " "
  if end is None: end = "\n"
  if _nu_kind(sep) != "str" or _nu_kind(end) != "str":
    raise TypeError("sep and end must be None or a string")
  first = True
  for a in args:
    if not first: _nu_write(sep)
    first = False
    _nu_write(str(a))
  _nu_write(end)
def input(prompt="", /):
  _nu_write(str(prompt))
  s = _nu_line()
  if s is None: raise EOFError("EOF when reading a line")
  return s
def _nu_checked(v, n):
  if _nu_kind(v) != "str": raise TypeError(n + " returned non-string")
  return v
def _nu_str(x=""):
  k = _nu_kind(x)
  if k == "str": return x
  m = _nu_special(x, "__str__") if k in ("instance", "exception") else None
  if m is not None: return _nu_checked(m(), "__str__")
  if k != "exception": return repr(x)
  a = _nu_args(x)
  if len(a) == 0: return ""
  if len(a) > 1: return repr(a)
  return repr(a[0]) if isinstance(x, KeyError) else str(a[0])
def repr(x, /):
  k = _nu_kind(x)
  if k == "str": return _nu_quote(x)
  if k in ("list", "tuple", "dict"):
    for y in _nu_seen:
      if y is x: return {"list": "[...]", "tuple": "(...)", "dict": "{...}"}[k]
    _nu_seen.append(x)
    try:
      return _nu_show(x, k)
    finally:
      _nu_seen.pop()
  m = _nu_special(x, "__repr__") if k in ("instance", "exception") else None
  if m is not None: return _nu_checked(m(), "__repr__")
  if k != "exception": return _nu_text(x)
  a = _nu_args(x)
  n = type(x).__name__
  return n + "(" + repr(a[0]) + ")" if len(a) == 1 else n + repr(a)
def _nu_show(x, k):
  if k == "dict":
    return "{" + ", ".join([repr(a) + ": " + repr(x[a]) for a in x]) + "}"
  s = ", ".join([repr(a) for a in x])
  if k == "list": return "[" + s + "]"
  return "(" + s + ",)" if len(x) == 1 else "(" + s + ")"
def _nu_report(e):
  try:
    return _nu_str(e)
  except BaseException:
    return "<exception str() failed>"
def _nu_listof(x=(), /):
  r = []
  for a in x: r.append(a)
  return r
def _nu_extend(r, x):
  if _nu_kind(x) == "list": x = x.copy()
  for a in x: r.append(a)
def _nu_addto(r, x):
  _nu_extend(r, x)
  return r
def _nu_dictof(x=(), /, **kw):
  d = {}
  _nu_update(d, x, **kw)
  return d
def _nu_update(d, x=(), /, **kw):
  if _nu_kind(x) == "dict":
    for k in x: d[k] = x[k]
  else:
    for k, v in x: d[k] = v
  for k in kw: d[k] = kw[k]
def _nu_in(v, c):
  m = _nu_special(c, "__contains__")
  if m is not None: return bool(m(v))
  for y in c:
    if y is v or y == v: return True
  return False
def iter(x, /, *more):
  if more: _nu_unbuilt()
  return _nu_iter(x)
def _nu_iterof(x):
  m = _nu_special(x, "__iter__")
  if m is not None:
    i = m()
    if not _nu_nextable(i): raise TypeError("iter() returned non-iterator")
    return i
  if _nu_special(x, "__getitem__") is not None: return _nu_items(x)
  raise TypeError("'" + type(x).__name__ + "' object is not iterable")
def _nu_items(x):
  n = 0
  while True:
    try:
      a = x[n]
    except (IndexError, StopIteration):
      return
    yield a
    n += 1
def next(i, /, *d):
  if len(d) > 1: raise TypeError("next expected at most 2 arguments")
  if not d: return _nu_next(i)
  try:
    return _nu_next(i)
  except StopIteration:
    return d[0]
def _nu_throw(g, x):
  return _nu_resume(g, _nu_exc(x))
def _nu_unpack(x, n):
  r = []
  for a in x:
    if len(r) == n:
      raise ValueError("too many values to unpack (expected " + str(n) + ")")
    r.append(a)
  if len(r) < n: _nu_few("", n, r)
  return r
def _nu_few(w, n, r):
  raise ValueError("not enough values to unpack (expected " + w + str(n)
    + ", got " + str(len(r)) + ")")
def _nu_unpackstar(x, a, b):
  r = _nu_listof(x)
  n = len(r) - b
  if n < a: _nu_few("at least ", a + b, r)
  return r[:a] + [r[a:n]] + r[n:]
def getattr(x, n, /, *d):
  if len(d) > 1: raise TypeError("getattr expected at most 3 arguments")
  if not d: return _nu_getattr(x, n)
  try:
    return _nu_getattr(x, n)
  except AttributeError:
    return d[0]
def hasattr(x, n, /):
  try:
    _nu_getattr(x, n)
  except AttributeError:
    return False
  return True
def abs(x, /): return -x if x < 0 else +x
def divmod(a, b, /): return a // b, a % b
def sum(x, /, start=0):
  if _nu_kind(start) == "str": raise TypeError("sum() can't sum strings")
  for a in x: start = start + a
  return start
def any(x, /):
  for a in x:
    if a: return True
  return False
def all(x, /):
  for a in x:
    if not a: return False
  return True
def min(*args, key=None, default=_nu_no):
  return _nu_best("min", args, key, default, False)
def max(*args, key=None, default=_nu_no):
  return _nu_best("max", args, key, default, True)
def _nu_best(name, args, key, default, up):
  if not args: raise TypeError(name + " expected at least 1 argument, got 0")
  if len(args) > 1 and default is not _nu_no:
    raise TypeError(name + "() has a default and several arguments")
  best = _nu_no
  top = None
  for a in args[0] if len(args) == 1 else args:
    k = a if key is None else key(a)
    if best is _nu_no or (k > top if up else k < top):
      best = a
      top = k
  if best is not _nu_no: return best
  if default is _nu_no: raise ValueError(name + "() arg is an empty sequence")
  return default
def sorted(x, /, *, key=None, reverse=False):
  r = _nu_listof(x)
  _nu_listsort(r, key=key, reverse=reverse)
  return r
def _nu_listsort(r, /, *, key=None, reverse=False):
  old = r.copy()
  ks = [a if key is None else key(a) for a in old]
  ps = _nu_order(ks, bool(reverse))
  r.clear()
  for p in ps: r.append(old[p])
def enumerate(x, start=0): return _nu_enumerate(iter(x), start)
def _nu_enumerate(i, n):
  for a in i:
    yield n, a
    n += 1
def zip(*xs): return _nu_zip([iter(x) for x in xs])
def _nu_zip(xs):
  if not xs: return
  while True:
    row = []
    for i in xs:
      try:
        row.append(next(i))
      except StopIteration:
        return
    yield tuple(row)
def map(f, x, /, *xs): return _nu_map(f, zip(x, *xs))
def _nu_map(f, rows):
  for r in rows: yield f(*r)
def filter(f, x, /): return _nu_filter(f, iter(x))
def _nu_filter(f, i):
  for a in i:
    if a if f is None else f(a): yield a
def reversed(x, /):
  if _nu_kind(x) in ("dict", "view"): _nu_unbuilt()
  return _nu_reversed(x, len(x))
def _nu_reversed(x, n):
  while n > 0:
    n -= 1
    yield x[n]
"#;
