// A multi and a multi_a with their keys, which stand in the key table as offsets into the material. They are written at
// once, without pieces, so that eight pieces a node suffice however many keys there are.
#![tactic(auto)]

ghost use Rattle.std.specs.Prelude.{◌≡◌, ◌+◌, ◌≤◌, length};
ghost use Rattle.emit.specs.Emission.{inked_all, penned_all};
ghost use Rattle.emit_multi.specs.Multis.{multi_keys, added_keys, multi_script, multi_a_script, Ready};

use emit::Pen;
use instruction::token;

// <key1> ... <keyn>
fn emit_keys(keys: &[u32], material: &[u8], out: &mut [u8], pen: Pen) -> Pen
    requires { Ready (length out.old) pen (multi_keys keys.now material.now (length keys.now) 0) }
    ensures { (out.new ≡ inked_all out.old pen (multi_keys keys.now material.now (length keys.now) 0)) × (result ≡ penned_all pen (multi_keys keys.now material.now (length keys.now) 0)) }
{
    let mut p = pen;
    for place in keys {
        p = emit::emit_push(out, p, material, *place as usize, 33);
    }
    p
}

// <key2> CHECKSIGADD ... <keyn> CHECKSIGADD
fn emit_added_keys(keys: &[u32], material: &[u8], out: &mut [u8], pen: Pen) -> Pen
    requires { Ready (length out.old) pen (added_keys keys.now material.now (length keys.now) 0) }
    ensures { (out.new ≡ inked_all out.old pen (added_keys keys.now material.now (length keys.now) 0)) × (result ≡ penned_all pen (added_keys keys.now material.now (length keys.now) 0)) }
{
    let mut p = pen;
    for place in keys {
        let pushed = emit::emit_push(out, p, material, *place as usize, 32);
        p = emit::emit_op(out, pushed, token::CHECK_SIG_ADD);
    }
    p
}

// <k> <key1> ... <keyn> <n> CHECKMULTISIG
pub fn emit_multi(
    keys: &[u32],
    material: &[u8],
    out: &mut [u8],
    pen: Pen,
    k: u32,
    first: usize,
    count: usize,
) -> Pen
    requires { (first + count ≤ length keys.now) × (count ≤ 4294967295) × (Ready (length out.old) pen (multi_script keys.now material.now k count first)) }
    ensures { (out.new ≡ inked_all out.old pen (multi_script keys.now material.now k count first)) × (result ≡ penned_all pen (multi_script keys.now material.now k count first)) }
{
    let a = emit::emit_number(out, pen, k);
    let b = emit_keys(&keys[first..first + count], material, out, a);
    let c = emit::emit_number(out, b, count as u32);
    emit::emit_op(out, c, token::CHECK_MULTI_SIG)
}

// <key1> CHECKSIG <key2> CHECKSIGADD ... <keyn> CHECKSIGADD <k> NUMEQUAL, with so many keys behind the first.
pub fn emit_multi_a(
    keys: &[u32],
    material: &[u8],
    out: &mut [u8],
    pen: Pen,
    k: u32,
    first: usize,
    further: usize,
) -> Pen
    requires { (first + 1 + further ≤ length keys.now) × (Ready (length out.old) pen (multi_a_script keys.now material.now k further first)) }
    ensures { (out.new ≡ inked_all out.old pen (multi_a_script keys.now material.now k further first)) × (result ≡ penned_all pen (multi_a_script keys.now material.now k further first)) }
{
    let a = emit::emit_push(out, pen, material, keys[first] as usize, 32);
    let b = emit::emit_op(out, a, token::CHECK_SIG);
    let c = emit_added_keys(&keys[first + 1..first + 1 + further], material, out, b);
    let d = emit::emit_number(out, c, k);
    emit::emit_op(out, d, token::NUM_EQUAL)
}
