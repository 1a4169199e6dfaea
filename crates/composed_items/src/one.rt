// One item alone: of a kind, a tag and a value in bytes, and as the reader of items answers it (the Rust's encode).
ghost use Rattle.std.specs.Prelude.{◌≡◌, true as yes, false as no};
ghost use Rattle.base.specs.Answers.{answer_of, out_of};
ghost use Rattle.composed_items.specs.One.{strange_kind, one_refusal, one_wire, sealed_wire, encoded_in, encoded_of};

use crate::tag_of;
use base::{Limit, Refusal, Written};
use items::{Item, ItemKind, is_beat};
use kept_items::put_item;
use wire::{Run, emit};

#[tactic(auto, unfolding(crate::specs::One::strange_kind))]
fn strange_kind(is_event: bool, kind: u8) -> bool
    ensures { result ≡ strange_kind is_event kind }
{
    if kind == ItemKind::PROPRIETARY {
        return false;
    }
    if is_event {
        return kind != ItemKind::HEARTBEAT;
    }
    true
}

// 29, 19 or 20 of a value of n bytes, or 0.
#[tactic(auto, unfolding(crate::specs::One::one_refusal, items::specs::Items::bad_beat))]
fn one_refusal(is_event: bool, kind: u8, tag: u8, n: usize) -> u8
    ensures { result ≡ one_refusal is_event kind tag n }
{
    if strange_kind(is_event, kind) {
        return Refusal::TYPE_LARGE;
    }
    if Limit::ITEM < n {
        return Refusal::ITEM_LONG;
    }
    if is_beat(is_event, tag_of(kind, tag)) && n % Limit::ENTRY != 0 {
        return Refusal::HEARTBEAT_LENGTH;
    }
    0
}

// An item of a kind, a tag and a value in bytes at the front of out, or 29, 19, 20, 21.
pub fn write_item(is_event: bool, kind: u8, tag: u8, value: &[u8], out: &mut [u8]) -> Written
    ensures answer { result ≡ answer_of (one_wire is_event kind tag value.now) out.old }
    ensures bytes { out.new ≡ out_of (one_wire is_event kind tag value.now) out.old }
{
    let refused = one_refusal(is_event, kind, tag, value.len());
    if refused != 0 {
        return Written::Refused(refused);
    }
    let n = 2 + value.len();
    if out.len() < n {
        return Written::Refused(Refusal::OUTPUT_SHORT);
    }
    let t = tag_of(kind, tag);
    put_item(is_beat(is_event, t), t, value, out, 0);
    Written::Bytes(n)
}

// A sealed run as it lies, or 45, 5, 21.
fn encode_sealed(run: Run, payload: &[u8], out: &mut [u8]) -> Written
    ensures answer { result ≡ answer_of (sealed_wire payload.now run) out.old }
    ensures bytes { out.new ≡ out_of (sealed_wire payload.now run) out.old }
{
    let refused = run.refusal(payload.len());
    if refused != 0 {
        return Written::Refused(refused);
    }
    let bytes = run.bytes(payload);
    if Limit::PAYLOAD < bytes.len() {
        return Written::Refused(Refusal::FRAME_LONG);
    }
    emit(bytes, out)
}

// 45 comes behind the kind, and before all else.
fn encode_value(
    is_event: bool,
    kind: u8,
    tag: u8,
    run: Run,
    payload: &[u8],
    out: &mut [u8],
) -> Written
    ensures answer { result ≡ answer_of (encoded_in is_event kind tag run payload.now) out.old }
    ensures bytes { out.new ≡ out_of (encoded_in is_event kind tag run payload.now) out.old }
{
    if strange_kind(is_event, kind) {
        return Written::Refused(Refusal::TYPE_LARGE);
    }
    let refused = run.refusal(payload.len());
    if refused != 0 {
        return Written::Refused(refused);
    }
    write_item(is_event, kind, tag, run.bytes(payload), out)
}

fn encode(is_event: bool, item: Item, payload: &[u8], out: &mut [u8]) -> Written
    ensures answer { result ≡ answer_of (encoded_of is_event item payload.now) out.old }
    ensures bytes { out.new ≡ out_of (encoded_of is_event item payload.now) out.old }
{
    let kind = item.kind;
    let tag = item.tag;
    let run = item.value;
    match kind {
        ItemKind::Encrypted => encode_sealed(run, payload, out),
        ItemKind::Heartbeat => {
            encode_value(is_event, ItemKind::HEARTBEAT, tag, run, payload, out)
        }
        ItemKind::Proprietary => {
            encode_value(is_event, ItemKind::PROPRIETARY, tag, run, payload, out)
        }
    }
}

// An item of an event, whose value lies in the lent payload, at the front of out; or 45, 19, 20, 21, and 5 of a sealed run.
pub fn encode_event(item: Item, payload: &[u8], out: &mut [u8]) -> Written
    ensures answer { result ≡ answer_of (encoded_of yes item payload.now) out.old }
    ensures bytes { out.new ≡ out_of (encoded_of yes item payload.now) out.old }
{
    encode(true, item, payload, out)
}

// Of a command: 29 of a heartbeat before all else.
pub fn encode_command(item: Item, payload: &[u8], out: &mut [u8]) -> Written
    ensures answer { result ≡ answer_of (encoded_of no item payload.now) out.old }
    ensures bytes { out.new ≡ out_of (encoded_of no item payload.now) out.old }
{
    encode(false, item, payload, out)
}
