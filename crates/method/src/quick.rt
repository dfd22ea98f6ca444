// The quick check: both equations of a last pair in one, by a weight, over one list for G and H.
ghost use Rattle.std.specs.Prelude.{◌≡◌, ℕ, ◌+◌, ◌*◌, ◌^◌, ◌≤◌, List, length, replicate, Ok, IfOk};
ghost use Rattle.std.specs.Simd.Lanes.{zip2};
ghost use Rattle.protocol.specs.Group.{power as power_of, product as product_of};
ghost use Rattle.protocol.specs.Weights.{HWeights, g_weights};
ghost use Rattle.kind.specs.Faults.{and_then, first_of};
ghost use Rattle.kind.specs.Kinds.{elements as elements_of, unit_entry};
ghost use Rattle.method.specs.Meaning.{reduced, cleared};
ghost use Rattle.method.specs.QuickCheck.{weight_refusal, quick_lengths, quick_content, quick_passes, quick_answer};
ghost use Rattle.method.specs.Tables.{challenges};

use crate::admit::{check_scalar, is_size};
use crate::fault::MethodFault;
use crate::last_pair::clear_numbers;
use crate::table::ChallengeTable;
use crate::weights::fill_weights;
use kind::checked::Checked;
use kind::entries::clear_entries;
use kind::fault::require;
use kind::kind::Kind;
use kind::modular::mul_scalars;
use kind::pair::Pair;

fn check_weight<K: Kind>(weight: u32) -> Result<(), MethodFault>
    ensures { result ≡ weight_refusal K.Kind.meaning weight }
{
    require(
        0 < weight && weight < K::order(),
        MethodFault::NotAChallenge(0),
    )
}

fn check_quick_lengths(
    n: usize,
    g: usize,
    elements: usize,
    numbers: usize,
) -> Result<(), MethodFault>
    ensures { result ≡ first_of (quick_lengths n g elements numbers) }
{
    require(is_size(g), MethodFault::Size(g))?;
    require(g == n, MethodFault::Length(g))?;
    require(n <= elements, MethodFault::Room(elements))?;
    require(n <= numbers, MethodFault::Room(numbers))
}

// The list, checked, after the last pair and the weight were.
fn check_quick_content<'a, K: Kind>(
    g: &'a [K::Entry],
    a: u32,
    b: u32,
    weight: u32,
) -> Result<Checked<'a, K>, MethodFault>
    ensures refused { and_then result (λ _. Ok tt) ≡ first_of (quick_content K.Kind.meaning g.now a b weight) }
    ensures list { IfOk result (λ c. c.entries.now ≡ g.now) }
{
    let g = Checked::<K>::new(g)?;
    check_scalar::<K>(a)?;
    check_scalar::<K>(b)?;
    check_weight::<K>(weight)?;
    Ok(g)
}

// a x + e y, modulo the order.
fn sum_of_products<K: Kind>(a: u32, x: u32, e: u32, y: u32) -> u32
    ensures { (z : K) → power_of K.Kind.meaning.group z result ≡ power_of K.Kind.meaning.group z (a * x + e * y) }
{
    (mul_scalars::<K>(a, x) + mul_scalars::<K>(e, y)) % K::order()
}

// The powers of the list's elements by a times the G weight and e times the H weight of each index, joined.
fn join_weighted<K: Kind>(g: &Checked<K>, ws: &[u32], a: u32, e: u32) -> K
    requires { length ws.now ≡ length g.now.entries.now }
    ensures { result ≡ product_of K.Kind.meaning.group (elements_of K.Kind.meaning g.now.entries.now) (zip2 (λ x y. a * x + e * y) (g_weights ws.now) ws.now) }
{
    let mut total = K::unit();
    for ((entry, g_weight), h_weight) in g.entries.iter().zip(ws.iter().rev()).zip(ws) {
        let exponent = sum_of_products::<K>(a, *g_weight, e, *h_weight);
        total = total.join(K::from_known(*entry).power(exponent));
    }
    total
}

// The quick check on a list of which nothing is refused. The numbers are left with the weights in them.
fn quick_decide<K: Kind>(
    cs: &[u32],
    z: Pair<K>,
    g: &Checked<K>,
    key: K,
    a: u32,
    b: u32,
    weight: u32,
    numbers: &mut [u32],
) -> bool
    requires long { length g.now.entries.now ≡ 2 ^ length cs.now }
    requires room { length numbers.old ≡ 2 ^ length cs.now }
    requires few { length cs.now ≤ 8 }
    ensures { (ws : List ℕ) → HWeights K.Kind.meaning.order (reduced K.Kind.meaning cs.now) ws → result ≡ quick_passes K.Kind.meaning ws z g.now.entries.now key a b weight }
{
    fill_weights::<K>(cs, numbers);
    let e = mul_scalars::<K>(weight, b);
    let joined = join_weighted(g, numbers, a, e);
    let wa = mul_scalars::<K>(weight, a);
    let wab = mul_scalars::<K>(wa, b);
    let left = joined.join(key.power(wab));
    let right = z.a.join(z.b.power(weight));
    left.same(right)
}

// The quick check, with the work lists cleared.
fn quick_decide_and_clear<K: Kind>(
    cs: &[u32],
    z: Pair<K>,
    g: &Checked<K>,
    key: K,
    a: u32,
    b: u32,
    weight: u32,
    elements: &mut [K::Entry],
    numbers: &mut [u32],
) -> bool
    requires long { length g.now.entries.now ≡ 2 ^ length cs.now }
    requires room { length numbers.old ≡ 2 ^ length cs.now }
    requires few { length cs.now ≤ 8 }
    ensures verdict { (ws : List ℕ) → HWeights K.Kind.meaning.order (reduced K.Kind.meaning cs.now) ws → result ≡ quick_passes K.Kind.meaning ws z g.now.entries.now key a b weight }
    ensures elements { elements.new ≡ replicate (length elements.old) (unit_entry K.Kind.meaning) }
    ensures numbers { numbers.new ≡ replicate (length numbers.old) 0 }
{
    let passes = quick_decide(cs, z, g, key, a, b, weight, numbers);
    clear_entries::<K>(elements);
    clear_numbers(numbers);
    passes
}

// The quick check. It passes exactly when product(G_i, a x Gweight_i + w x b x Hweight_i) joined with K^(w a b) is Z1 joined
// with Z2^w, for the folded Z1 and Z2. Refused as a method refuses, and by 13 for the weight; refused, it alters nothing.
pub fn quick_check<K: Kind>(
    table: &ChallengeTable,
    z: Pair<K>,
    g: &[K::Entry],
    key: K,
    a: u32,
    b: u32,
    weight: u32,
    work_elements: &mut [K::Entry],
    work_numbers: &mut [u32],
) -> Result<bool, MethodFault>
    ensures answer { (ws : List ℕ) → HWeights K.Kind.meaning.order (reduced K.Kind.meaning (challenges table.now)) ws → result ≡ quick_answer K.Kind.meaning (challenges table.now) ws z g.now key a b weight (length work_elements.old) (length work_numbers.old) }
    ensures elements { work_elements.new ≡ cleared result (2 ^ length (challenges table.now)) (unit_entry K.Kind.meaning) work_elements.old }
    ensures numbers { work_numbers.new ≡ cleared result (2 ^ length (challenges table.now)) 0 work_numbers.old }
{
    let cs = table.challenges();
    let n = table.size();
    check_quick_lengths(n, g.len(), work_elements.len(), work_numbers.len())?;
    let gs = check_quick_content::<K>(g, a, b, weight)?;
    Ok(quick_decide_and_clear(
        cs,
        z,
        &gs,
        key,
        a,
        b,
        weight,
        &mut work_elements[..n],
        &mut work_numbers[..n],
    ))
}
