// The bound is reached (02, K11). `write_pair` takes any two numbers and lists: it writes a reference of p nodes and a
// device of q, whose first failing test is number p q - 1, to the fronts of the lists and answers their lengths in
// bytes, or why it refuses. The bytes are copied node by node, with no sheet made on the way.
#![tactic(auto)]

ghost use Rattle.std.specs.Prelude.{◌≡◌, List, ℕ, ◌+◌, ◌*◌, ◌≤◌, length};
ghost use Rattle.std.proofs.lemmas.List.Edits.{sets};
ghost use Rattle.refusals.specs.Numbers.{refusal_in, numbered};
ghost use Rattle.base.specs.Front.{at_front};
ghost use Rattle.bound_spec.specs.Sheets.{reference_bytes, device_bytes};
ghost use Rattle.bound_spec.specs.Calls.{bound_fault, bound_numbers, reference_length, device_length, bound_of};
ghost use Rattle.bound_spec.specs.Calls.{reference_after, device_after};
ghost use Rattle.bound_spec.specs.ByteLaws.{head_bytes, one_set_bytes, two_sets_bytes};

use bound_spec::Lengths;
use refusals::Refusal;

// ---- the pieces

// Copies bytes into a list from place `at` on.
fn put(out: &mut [u8], at: usize, bytes: &[u8])
    requires { at + length bytes.now ≤ length out.old }
    ensures { out.new ≡ sets out.old at bytes.now }
{
    out[at..at + bytes.len()].copy_from_slice(bytes);
}

// Puts the seven bytes before the nodes: how many follow the first four, version 1, two events, n nodes.
fn put_head(out: &mut [u8], size: u8, n: u8)
    requires { 7 ≤ length out.old }
    ensures { out.new ≡ sets out.old 0 (head_bytes size n) }
{
    put(out, 0, &[0, 0, 0, size, 1, 2, n]);
}

// Puts the five bytes of a node with the successors a and b and one set.
fn put_one_set(out: &mut [u8], at: usize, a: u8, b: u8, set: u8)
    requires { at + 5 ≤ length out.old }
    ensures { out.new ≡ sets out.old at (one_set_bytes a b set) }
{
    put(out, at, &[a, b, 1, 0, set]);
}

// Puts the seven bytes of a node with the successors a and b and the sets 1 and 2.
fn put_two_sets(out: &mut [u8], at: usize, a: u8, b: u8)
    requires { at + 7 ≤ length out.old }
    ensures { out.new ≡ sets out.old at (two_sets_bytes a b) }
{
    put(out, at, &[a, b, 2, 0, 1, 0, 2]);
}

// ---- the two sheets

// Writes the reference of p nodes to the front of a list that is long enough: each node but the last stays on 0 and
// climbs on 1, and the last stays on 0.
fn write_reference(p: u8, out: &mut [u8])
    requires { (1 ≤ p) × (p ≤ 32) × (7 * p + 5 ≤ length out.old) }
    ensures { out.new ≡ at_front out.old (reference_bytes p) }
{
    put_head(out, 7 * p + 1, p);
    let last = p - 1;
    for v in 0..last {
        put_two_sets(out, 7 * usize::from(v) + 7, v, v + 1);
    }
    put_one_set(out, 7 * usize::from(last) + 7, last, 255, 1);
}

// Writes the device of q nodes to the front of a list that is long enough: each node but the last climbs on 0, and the
// last returns to the first on 1.
fn write_device(q: u8, out: &mut [u8])
    requires { (1 ≤ q) × (q ≤ 32) × (5 * q + 7 ≤ length out.old) }
    ensures { out.new ≡ at_front out.old (device_bytes q) }
{
    put_head(out, 5 * q + 3, q);
    let last = q - 1;
    for v in 0..last {
        put_one_set(out, 5 * usize::from(v) + 7, v + 1, 255, 1);
    }
    put_one_set(out, 5 * usize::from(last) + 7, 255, 0, 2);
}

// ---- the call

// Why a call is refused, if it is: p or q is not 1 to 32; a list is too short for its sheet.
fn fault_on(p: u8, q: u8, reference: &[u8], device: &[u8]) -> Result<(), Refusal>
    ensures { refusal_in result ≡ bound_fault p q reference.now device.now }
{
    if !(1..=32).contains(&p) || !(1..=32).contains(&q) {
        return Err(Refusal::BoundNodes);
    }
    if reference.len() < 7 * usize::from(p) + 5 {
        return Err(Refusal::BoundList);
    }
    if device.len() < 5 * usize::from(q) + 7 {
        return Err(Refusal::BoundList);
    }
    Ok(())
}

// Writes the reference of p nodes to the front of one lent list and the device of q nodes to the front of the other,
// and answers their lengths in bytes; or why it refuses, and both lists are as they were: 30, p or q is not 1 to 32;
// 31, a list is too short for its sheet.
pub fn write_pair(p: u8, q: u8, reference: &mut [u8], device: &mut [u8]) -> Result<Lengths, Refusal>
    ensures { (numbered result ≡ bound_of p q reference.old device.old)
        × (bound_numbers (numbered result)
        ≡ (
          bound_fault p q reference.old device.old,
          reference_length p q reference.old device.old,
          device_length p q reference.old device.old,
        ))
        × (reference.new ≡ reference_after p q reference.old device.old)
        × (device.new ≡ device_after p q reference.old device.old) }
{
    fault_on(p, q, reference, device)?;
    write_reference(p, reference);
    write_device(q, device);
    Ok(Lengths {
        reference: 7 * u16::from(p) + 5,
        device: 5 * u16::from(q) + 7,
    })
}
