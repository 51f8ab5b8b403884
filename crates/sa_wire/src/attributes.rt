//! The attributes at the end of a policy: whatever their order, each rule is met by one of them, and each of them meets a rule.
ghost use Rattle.std.specs.Prelude.{◌≡◌, ◌≤◌, ◌<◌, length, None, Some, OnSome, IfOk, IfSome, ◌==◌, if◌then◌else◌};
ghost use Rattle.std.specs.List.{position};
ghost use Rattle.sa_wire.specs.declared.attributes.Found.{Found};
ghost use Rattle.gd_wire.specs.Readings.{Gives, Shows};
ghost use Rattle.sa_wire.specs.Rules.{place_among, has_rule, rule_for, without, takes};
ghost use Rattle.sa_wire.specs.Attributes.{taken_number, taken_octets, due_attribute, attributes, found_of};

use crate::rules::{MOST_RULES, Rule};
use arrayvec::ArrayVec;
use gd_wire::{Reader, attribute_type, fault, no_more_attributes};
use group_terms::{WireFault, WireWhat};

/// An attribute that was found: its kind, its number in the short form, else 0, and the place in the datagram of what comes after its type,
/// in the long form after its length.
#[derive(Clone, Copy, Default)]
pub(crate) struct Found {
    pub kind: u16,
    pub number: u16,
    pub at: u32,
}

/// Reads attributes up to the end of a text. An attribute without a rule, a second one of its kind, or one in a form that is not taken is
/// `Kind` at its type; a number that is not taken is `Value` at it; one that is missing is `Short` at the end of the text.
pub(crate) fn read_attributes(
    rules: &[Rule],
    text: &mut Reader,
) -> Result<ArrayVec<Found, MOST_RULES>, WireFault>
    requires few { length rules.now ≤ MOST_RULES }
    ensures { Shows (λ found. found.items) result text.new (attributes rules.now text.old) }
{
    let mut due = ArrayVec::<Rule, MOST_RULES>::new();
    due.try_extend_from_slice(rules).unwrap();
    let mut found = ArrayVec::new();
    for _ in rules {
        let attribute = read_due_attribute(&mut due, text)?;
        found.push(attribute);
    }
    no_more_attributes(text)?;
    Ok(found)
}

/// Reads an attribute for which a rule is due, and takes that rule off.
#[tactic(auto, unfolding(crate::specs::Attributes::due_attribute))]
fn read_due_attribute(
    due: &mut ArrayVec<Rule, MOST_RULES>,
    text: &mut Reader,
) -> Result<Found, WireFault>
    ensures gives { Gives result text.new (due_attribute due.old.items text.old) }
    ensures due { IfOk result (λ found. due.new.items ≡ without found.kind due.old.items) }
{
    let at = text.here();
    let attribute_type = attribute_type(text)?;
    let number = attribute_type.kind;
    let Some(rule) = take_rule(due, number) else {
        return Err(fault(WireWhat::Kind { number }, at));
    };
    if attribute_type.is_short {
        return read_short(number, &rule, text);
    }
    read_long(number, &rule, at, text)
}

/// Takes the rule for a kind off, where it is due.
fn take_rule(due: &mut ArrayVec<Rule, MOST_RULES>, kind: u16) -> Option<Rule>
    ensures rule { result ≡ (if has_rule kind due.old.items then Some (rule_for kind due.old.items) else None) }
    ensures due { OnSome result (due.new.items ≡ without kind due.old.items) }
{
    let place = place_among(due.as_slice(), kind)?;
    Some(due.remove(place))
}

/// The place of the rule for a kind.
fn place_among(rules: &[Rule], kind: u16) -> Option<usize>
    ensures place { result ≡ (if has_rule kind rules.now then Some (place_among kind rules.now) else None) }
    ensures within { IfSome result (λ place. place < length rules.now) }
{
    rules.iter().position(|rule| rule.kind == kind)
}

/// Reads the number of an attribute in the short form.
#[tactic(auto, unfolding(crate::specs::Attributes::taken_number))]
fn read_short(kind: u16, rule: &Rule, text: &mut Reader) -> Result<Found, WireFault>
    ensures gives { Gives result text.new (taken_number kind rule.now text.old) }
    ensures kind { IfOk result (λ found. found.kind ≡ kind) }
{
    let at = text.here();
    let number = text.number()?;
    if !takes(rule, number) {
        return Err(fault(WireWhat::Value, at));
    }
    Ok(Found { kind, number, at })
}

/// Whether a rule takes a number in the short form.
fn takes(rule: &Rule, number: u16) -> bool
    ensures { result ≡ takes rule.now number }
{
    rule.least <= number && number <= rule.most
}

/// Reads the value of an attribute in the long form, whose type is at this place in the datagram.
#[tactic(auto, unfolding(crate::specs::Attributes::taken_octets))]
fn read_long(kind: u16, rule: &Rule, type_at: u32, text: &mut Reader) -> Result<Found, WireFault>
    ensures gives { Gives result text.new (taken_octets kind rule.now type_at text.old) }
    ensures kind { IfOk result (λ found. found.kind ≡ kind) }
{
    let number = kind;
    if !rule.long {
        return Err(fault(WireWhat::Kind { number }, type_at));
    }
    if text.number()? != 4 {
        return Err(fault(WireWhat::Kind { number }, type_at));
    }
    let at = text.here();
    text.octets(4)?;
    Ok(Found {
        kind,
        number: 0,
        at,
    })
}

/// The attribute of a kind, of which one was found.
pub(crate) fn found_of(kind: u16, found: &[Found]) -> Found
    ensures { result ≡ found_of kind found.now }
{
    match place_found(kind, found) {
        Some(place) => found[place],
        None => Found {
            kind: 0,
            number: 0,
            at: 0,
        },
    }
}

/// The place of the attribute of a kind.
fn place_found(kind: u16, found: &[Found]) -> Option<usize>
    ensures place { result ≡ position (λ (attribute : Found). attribute.kind == kind) found.now }
    ensures within { IfSome result (λ place. place < length found.now) }
{
    found.iter().position(|attribute| attribute.kind == kind)
}
