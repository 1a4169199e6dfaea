// What an opening reports: how many items a payload keeps and skips, the bytes of those kept, of those skipped and of the cut tail, and whether it
// is clean.
ghost use Rattle.std.specs.Prelude.{◌≡◌, Bool};
ghost use Rattle.items.specs.Items.{kept_clean, opening_of, nothing, counts_of};

use crate::item::{Command, Event, ItemRead, Items, is_beat};
use base::{Limit, Refusal};
use fields::RelayPath;

#[derive(Clone, Copy)]
pub struct Opening {
    pub kept: usize,
    pub skipped: usize,
    pub kept_bytes: usize,
    pub skipped_bytes: usize,
    pub cut_bytes: usize,
    // Nothing was skipped or cut, and no path entry has odd bits: writing the kept items gives the payload back.
    pub clean: bool,
}

#[derive(Clone, Copy)]
pub enum OpeningRead {
    Opening(Opening),
    Refused(u8),
}

// Whether a kept item is written as it stands.
fn kept_clean(is_event: bool, tag: u8, value: &[u8]) -> bool
    ensures { result ≡ kept_clean is_event tag value.now }
{
    if is_beat(is_event, tag) {
        return RelayPath::all_even(value);
    }
    true
}

// For the crates above: a payload of any length.
pub fn count_items(payload: &[u8], is_event: bool) -> Opening
    ensures { result ≡ opening_of is_event payload.now }
{
    let mut all = Opening::none();
    let items = Items {
        payload,
        at: 0,
        is_event,
    };
    for read in items {
        match read {
            ItemRead::Kept { item, next: _ } => {
                let run = item.value;
                all.clean = all.clean & kept_clean(is_event, item.tag, run.bytes(payload));
                all.kept += 1;
                all.kept_bytes += 2 + run.len;
            }
            ItemRead::Skipped { item, next: _ } => {
                let run = item.value;
                all.clean = false;
                all.skipped += 1;
                all.skipped_bytes += 2 + run.len;
            }
            ItemRead::Cut { tail, next: _ } => {
                all.clean = false;
                all.cut_bytes += tail.len;
            }
            _ => {}
        }
    }
    all
}

impl Opening {
    // Of a payload with no items.
    pub fn none() -> Opening
        ensures { result ≡ nothing }
    {
        Opening {
            kept: 0,
            skipped: 0,
            kept_bytes: 0,
            skipped_bytes: 0,
            cut_bytes: 0,
            clean: true,
        }
    }
}

impl Event {
    // Of an event's payload: 5 where it is too long for any frame.
    pub fn count(payload: &[u8]) -> OpeningRead
        ensures { result ≡ counts_of Bool.true payload.now }
    {
        if Limit::PAYLOAD < payload.len() {
            return OpeningRead::Refused(Refusal::FRAME_LONG);
        }
        OpeningRead::Opening(count_items(payload, true))
    }
}

impl Command {
    // Of a command's.
    pub fn count(payload: &[u8]) -> OpeningRead
        ensures { result ≡ counts_of Bool.false payload.now }
    {
        if Limit::PAYLOAD < payload.len() {
            return OpeningRead::Refused(Refusal::FRAME_LONG);
        }
        OpeningRead::Opening(count_items(payload, false))
    }
}
