// How many bytes the records of a system take, and whether one is too wide: 14.
ghost use Rattle.std.specs.Prelude.{◌≡◌, ◌+◌, ◌*◌, ◌≤◌, length};
ghost use Rattle.lower.specs.Accepted.{MAX_DEFINITIONS, MAX_OTHERS};
ghost use Rattle.house_write.specs.Sizes.{handles_size, rows_wide, definitions_wide, wides_in, bytes_in, Within};

use lower::LentSystem;
use operand::WireOperand;

// The largest payload of a record.
const MAX_PAYLOAD: usize = 65535;

// The bytes of the operands.
pub(crate) fn operands(hs: &[u64]) -> usize
    requires { length hs.now ≤ 6144 }
    ensures { (result ≡ handles_size hs.now) × (result ≤ 25769803776 * length hs.now) }
{
    let mut sum = 0;
    for &h in hs {
        sum += 2 + 6 * WireOperand::from_number(h).len();
    }
    sum
}

// Whether one of `n` rows of `k` operands is too wide.
fn rows_wide(hs: &[u64], k: usize, n: usize) -> bool
    requires { (k ≤ 6) × (k * n ≤ length hs.now) }
    ensures { result ≡ rows_wide k n hs.now }
{
    let mut rest = hs;
    for _ in 0..n {
        let (row, after) = rest.split_at(k);
        if MAX_PAYLOAD < operands(row) {
            return true;
        }
        rest = after;
    }
    false
}

// The same of the definitions with these right sides. A destination has two bytes.
fn definitions_wide(rhss: &[u64]) -> bool
    ensures { result ≡ definitions_wide rhss.now }
{
    for &h in rhss {
        if MAX_PAYLOAD < 4 + 6 * WireOperand::from_number(h).len() {
            return true;
        }
    }
    false
}

#[tactic(auto, unfolding(crate::specs::Sizes::wides_in))]
pub(crate) fn has_wide(system: &LentSystem<'_>) -> bool
    requires { Within system.now.sizes system.now.ands.now system.now.imuls.now system.now.bmuls.now system.now.zeros.now system.now.rhss.now }
    ensures { result ≡ wides_in system.now.sizes system.now.ands.now system.now.imuls.now system.now.bmuls.now system.now.zeros.now system.now.rhss.now }
{
    let z = system.sizes;
    rows_wide(system.ands, 3, z.ands)
        || rows_wide(system.imuls, 4, z.imuls)
        || rows_wide(system.bmuls, 6, z.bmuls)
        || rows_wide(system.zeros, 1, z.zeros)
        || definitions_wide(&system.rhss[..z.linears])
}

// The whole file's.
#[tactic(auto, unfolding(crate::specs::Sizes::bytes_in))]
pub(crate) fn bytes(system: &LentSystem<'_>) -> usize
    requires counts { (system.now.sizes.ands + system.now.sizes.imuls + system.now.sizes.bmuls + system.now.sizes.zeros ≤ MAX_OTHERS) × (system.now.sizes.linears ≤ MAX_DEFINITIONS) }
    requires within { Within system.now.sizes system.now.ands.now system.now.imuls.now system.now.bmuls.now system.now.zeros.now system.now.rhss.now }
    ensures { result ≡ bytes_in system.now.sizes system.now.ands.now system.now.imuls.now system.now.bmuls.now system.now.zeros.now system.now.rhss.now }
{
    let z = system.sizes;
    8 + (3 * z.ands + operands(&system.ands[..3 * z.ands]))
        + (3 * z.imuls + operands(&system.imuls[..4 * z.imuls]))
        + (3 * z.bmuls + operands(&system.bmuls[..6 * z.bmuls]))
        + (3 * z.zeros + operands(&system.zeros[..z.zeros]))
        + (5 * z.linears + operands(&system.rhss[..z.linears]))
}
