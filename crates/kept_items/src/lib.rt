// An item laid into a lent buffer, and an open payload as its kept items one after another.
#![tactic(auto)]

ghost use Rattle.std.specs.Prelude.{◌≡◌, ◌+◌, ◌%◌, ◌≤◌, length};
ghost use Rattle.base.specs.Lists.{imap};
ghost use Rattle.wire.specs.Lay.{put};
ghost use Rattle.kept_items.specs.Kept.{fixed, item_bytes, open_bytes};

use base::Limit;
use items::{ItemRead, Items, count_items, is_beat};

fn fix(beat: bool, i: usize, b: u8) -> u8
    ensures { result ≡ fixed beat i b }
{
    if beat {
        if i % Limit::ENTRY == 5 {
            return b % 64;
        }
        return b;
    }
    b
}

// A value as it is written; it fits.
fn put_value(beat: bool, value: &[u8], out: &mut [u8], at: usize)
    requires { at + length value.now ≤ length out.old }
    ensures { out.new ≡ put out.old at (imap (fixed beat) 0 value.now) }
{
    for (i, b) in value.iter().enumerate() {
        out[at + i] = fix(beat, i, *b);
    }
}

// An item's length byte; a value that is written is at most 255 bytes long.
pub fn low_byte(n: usize) -> u8
    ensures { result ≡ n % 256 }
{
    (n % 256) as u8
}

// One item; it fits.
fn lay_item(beat: bool, tag: u8, value: &[u8], out: &mut [u8], at: usize)
    requires { at + (2 + length value.now) ≤ length out.old }
    ensures { out.new ≡ put out.old at (item_bytes beat tag value.now) }
{
    out[at] = tag;
    out[at + 1] = low_byte(value.len());
    put_value(beat, value, out, at + 2);
}

// One item, where it fits.
pub fn put_item(beat: bool, tag: u8, value: &[u8], out: &mut [u8], at: usize)
    ensures { out.new ≡ put out.old at (item_bytes beat tag value.now) }
{
    if 2 + value.len() <= out.len().saturating_sub(at) {
        lay_item(beat, tag, value, out, at);
    }
}

// The kept items of an open payload, where they fit.
pub fn put_kept(is_event: bool, payload: &[u8], out: &mut [u8], at: usize)
    ensures { out.new ≡ put out.old at (open_bytes is_event payload.now) }
{
    let told = count_items(payload, is_event);
    if out.len() < at {
        return;
    }
    if out.len() - at < told.kept_bytes {
        return;
    }
    let mut o: usize = 0;
    let items = Items {
        payload,
        at: 0,
        is_event,
    };
    for read in items {
        if let ItemRead::Kept { item, next: _ } = read {
            let run = item.value;
            let beat = is_beat(is_event, item.tag);
            lay_item(beat, item.tag, run.bytes(payload), out, at + o);
            o += 2 + run.len;
        }
    }
}
