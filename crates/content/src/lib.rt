// Metadata content that is sent in: judged, and stored.
#![tactic(auto)]

ghost use Rattle.std.specs.Prelude.{◌≡◌, true, [], ◌∷◌};
ghost use Rattle.rules.specs.Metadata.{field_allowed, metadata_allowed, sent_fields};
ghost use Rattle.record.specs.Places.{object_at, Stored};
ghost use Rattle.reader.specs.Content.{told};
ghost use Rattle.content.specs.Storing.{stored_fields, tag_slot};

use reader::{Field, Malformed, MetadataReader};
use rules::{CHANGE_TAG, EXECUTE_TAG, READ_TAG, STATE_TAG, Slot};

// Whether an object at this LcsO takes a field.
#[tactic(auto, unfolding(rules::specs::Metadata::field_allowed, rules::specs::Metadata::field, rules::specs::Basic::among))]
fn field_allowed(field: Field, lcso: u8) -> bool
    ensures { result ≡ field_allowed lcso (told field.entry) }
{
    match field.tag {
        STATE_TAG => field.value.len() == 1 && expression::may_become(lcso, field.value[0]),
        CHANGE_TAG | READ_TAG | EXECUTE_TAG => expression::well_formed(field.value),
        _ => false,
    }
}

// Whether an object at this LcsO takes the content: each of its fields is judged before any is stored.
pub fn content_allowed(content: &[u8], lcso: u8) -> bool
    ensures { result ≡ metadata_allowed lcso content.now }
{
    if content.len() <= 2 || content[0] != 0x20 || content[1] as usize != content.len() - 2 {
        return false;
    }
    let mut reader = MetadataReader::new(content, 2);
    let mut last = 0;
    while let Some(next) = reader.advance() {
        match next {
            Ok(field) if last < field.tag && field_allowed(field, lcso) => last = field.tag,
            Ok(_) => return false,
            Err(Malformed) => return false,
        }
    }
    true
}

// The slot of an expression's tag.
// A slot for every byte, as `tag_slot` has it.
#[tactic(auto, unfolding(crate::specs::Storing::tag_slot))]
fn slot_of(tag: u8) -> Slot
    ensures { result ≡ tag_slot tag }
{
    match tag {
        CHANGE_TAG => Slot::Change,
        READ_TAG => Slot::Read,
        _ => Slot::Execute,
    }
}

// Stores a field; that an LcsO does not fall is judged before.
// The store is lent to be changed: a place stands beside it, and no StoredObject, which lends it shared.
fn store_field(store: &mut [u8], at: usize, field: Field)
    requires { Stored at store.old × (field_allowed 0 (told field) ≡ true) }
    ensures { store.new ≡ stored_fields at (told field.entry ∷ []) store.old }
{
    match field.tag {
        STATE_TAG => change::set_lcso(store, at, field.value[0]),
        tag => change::set_expression(store, at, slot_of(tag), field.value),
    }
}

// Stores all fields of content that is allowed.
pub fn store_content(store: &mut [u8], at: usize, content: &[u8])
    requires { Stored at store.old × (metadata_allowed (object_at at store.old).lcso content.now ≡ true) }
    ensures { store.new ≡ stored_fields at (sent_fields content.now) store.old }
{
    let mut reader = MetadataReader::new(content, 2);
    while let Some(next) = reader.advance() {
        let Ok(field) = next else {
            return;
        };
        store_field(store, at, field);
    }
}
