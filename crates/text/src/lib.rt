// The texts that the programs print, put into lent bytes.
#![tactic(auto)]

ghost use Rattle.std.specs.Prelude.{◌≡◌, ◌+◌, ◌^◌, ◌≤◌, ◌<◌, length};
ghost use Rattle.text.specs.Decimal.{decimal};
ghost use Rattle.text.specs.Text.{refused_text, refused_at_text, value_text, values_text, ok_text, lines_text, PutsAt, Puts, Enough};
ghost use Rattle.text.specs.Committed.{committed_from, flag_text, Lines};

use refusal::Refusal;

// Bytes at a place, and the place after them. A byte past the end is dropped, so the same functions count a text.

pub fn put(text: &[u8], out: &mut [u8], at: usize) -> usize
    requires { (length text.now ≤ 4096) × (at < 2 ^ 62) }
    ensures { PutsAt text.now out.old at result out.new }
{
    let n = text.len();
    for i in 0..n {
        house_file::put(out, at + i, text[i]);
    }
    at + n
}

fn put_decimal(n: usize, out: &mut [u8], at: usize) -> usize
    requires { at < 2 ^ 62 }
    ensures puts_at { PutsAt (decimal n) out.old at result out.new }
    ensures upper_bound { result ≤ at + 20 }
{
    if n < 10 {
        house_file::put(out, at, (48 + n) as u8);
        return at + 1;
    }
    let next = put_decimal(n / 10, out, at);
    house_file::put(out, next, (48 + n % 10) as u8);
    next + 1
}

// A space, and the value.
fn put_value(v: usize, out: &mut [u8], at: usize) -> usize
    requires { at < 2 ^ 61 }
    ensures puts_at { PutsAt (value_text v) out.old at result out.new }
    ensures upper_bound { result ≤ at + 21 }
{
    house_file::put(out, at, 32);
    put_decimal(v, out, at + 1)
}

fn put_values(vs: &[usize], out: &mut [u8], at: usize) -> usize
    requires { (length vs.now ≤ 16) × (at < 2 ^ 60) }
    ensures puts_at { PutsAt (values_text vs.now) out.old at result out.new }
    ensures upper_bound { result ≤ at + 336 }
{
    let mut p = at;
    for &v in vs {
        p = put_value(v, out, p);
    }
    p
}

fn put_ok(vs: &[usize], out: &mut [u8]) -> usize
    requires { length vs.now ≤ 16 }
    ensures puts_at { PutsAt (ok_text vs.now) out.old 0 result out.new }
    ensures upper_bound { result ≤ 339 }
{
    let p = put(b"ok", out, 0);
    let q = put_values(vs, out, p);
    put(b"\n", out, q)
}

fn put_refused(number: usize, out: &mut [u8]) -> usize
    ensures puts_at { PutsAt (refused_text number) out.old 0 result out.new }
    ensures upper_bound { result ≤ 29 }
{
    let p = put(b"refused ", out, 0);
    let q = put_decimal(number, out, p);
    put(b"\n", out, q)
}

fn put_refused_at(number: usize, offset: usize, out: &mut [u8]) -> usize
    ensures puts_at { PutsAt (refused_at_text number offset) out.old 0 result out.new }
    ensures upper_bound { result ≤ 53 }
{
    let p = put(b"refused ", out, 0);
    let q = put_decimal(number, out, p);
    let s = put(b" at ", out, q);
    let t = put_decimal(offset, out, s);
    put(b"\n", out, t)
}

// A line where the wire is committed.
fn put_flag(flag: u8, wire: usize, out: &mut [u8], at: usize) -> usize
    requires { at < 2 ^ 61 }
    ensures puts_at { PutsAt (flag_text flag wire) out.old at result out.new }
    ensures upper_bound { result ≤ at + 21 }
{
    if flag == 0 {
        return at;
    }
    let p = put_decimal(wire, out, at);
    put(b"\n", out, p)
}

fn put_lines(flags: &[u8], out: &mut [u8]) -> usize
    requires { length flags.now ≤ 4096 }
    ensures puts_at { PutsAt (lines_text (committed_from 0 flags.now)) out.old 0 result out.new }
    ensures upper_bound { result ≤ 86016 }
{
    let mut p = 0;
    for i in 0..flags.len() {
        p = put_flag(flags[i], i, out, p);
    }
    p
}

// A text is counted first, by putting it where all of it but a byte is dropped: one that does not fit is not begun.
// Kept: four functions: one over a closure that puts the text is no plainer, its clause would name what the closure leaves.

// `refused N` and a newline.
pub fn refused_line(number: u8, out: &mut [u8]) -> Result<usize, Refusal>
    ensures puts { Puts (refused_text number) out.old result out.new }
    ensures enough { Enough 29 out.old result }
{
    let mut none = [0u8; 1];
    let n = put_refused(number as usize, &mut none);
    if out.len() < n {
        return Err(Refusal::Room);
    }
    put_refused(number as usize, out);
    Ok(n)
}

// `refused N at OFFSET` and a newline.
pub fn refused_at_line(number: u8, at: usize, out: &mut [u8]) -> Result<usize, Refusal>
    ensures puts { Puts (refused_at_text number at) out.old result out.new }
    ensures enough { Enough 53 out.old result }
{
    let mut none = [0u8; 1];
    let n = put_refused_at(number as usize, at, &mut none);
    if out.len() < n {
        return Err(Refusal::Room);
    }
    put_refused_at(number as usize, at, out);
    Ok(n)
}

// The wires whose flag is not 0, rising, each on a line of its own.
pub fn committed_lines(flags: &[u8], out: &mut [u8]) -> Result<usize, Refusal>
    ensures lines { Lines flags.now out.old result out.new }
    ensures enough { length flags.now ≤ 4096 → Enough 86016 out.old result }
{
    if lower::MAX_WIRES < flags.len() {
        return Err(Refusal::Full);
    }
    let mut none = [0u8; 1];
    let n = put_lines(flags, &mut none);
    if out.len() < n {
        return Err(Refusal::Room);
    }
    put_lines(flags, out);
    Ok(n)
}

// `ok`, each value after a space, and a newline.
pub fn ok_line(vs: &[usize], out: &mut [u8]) -> Result<usize, Refusal>
    requires { length vs.now ≤ 16 }
    ensures puts { Puts (ok_text vs.now) out.old result out.new }
    ensures enough { Enough 339 out.old result }
{
    let mut none = [0u8; 1];
    let n = put_ok(vs, &mut none);
    if out.len() < n {
        return Err(Refusal::Room);
    }
    put_ok(vs, out);
    Ok(n)
}
