ghost use Rattle.std.specs.Prelude.{◌≡◌, ◌≤◌, ltb, ◌&&◌};
ghost use Rattle.load_header.specs.Header.{header_view};
ghost use Rattle.accept_rules.specs.Interlocks.{IsInterlock};
ghost use Rattle.accept_rules.specs.Permissions.{permits};

use accept_rules::{Asks, Interlock, KeptLoad, KnownRule, PermitsAll, Rule};
use load_base::{Bytes, List, PartText, Text};
use load_header::LoadHeader;
use part_number::PartNumber;
use std::alloc::Global;
use std::test::Fail;

fn header(alloc: Global, type_id: u16) -> Result<LoadHeader, Fail> {
    Ok(LoadHeader {
        flags: 0,
        part: PartNumber::read(b"ABC41-0000-0001")?,
        type_name: Text::read(alloc, b"APP")?,
        type_id,
        hardware: List::new(alloc),
        positions: List::new(alloc),
        data_files: List::new(alloc),
        support_files: List::new(alloc),
        user: Bytes::new(alloc),
        load_crc: 0,
    })
}

fn answer_of<R: Rule + Drop>(rule: R, header: &LoadHeader, kept: &[KeptLoad]) -> bool
    requires { IsInterlock R.may_ask R.may_say rule }
    ensures { result ≡ R.accepts rule (header_view header.now) kept.now }
{
    let interlock = Interlock::new(rule);
    interlock.admits(header, kept)
}

/// Accepts each load of a type below this one that a rule may accept.
#[derive(Clone, Copy)]
struct TypesBelow {
    limit: u16,
}

impl KnownRule for TypesBelow {
    ghost use Rattle.std.specs.Prelude.{ltb, ◌&&◌};
    ghost use Rattle.accept_rules.specs.Permissions.{permits};

    ghost accepts = { λ rule h kept. ltb h.type_id rule.limit && permits h kept };
}

/// A maker's rule that refuses types of its own from this one on.
fn refuses_from(limit: u16, header: &LoadHeader, kept: &[KeptLoad]) -> bool
    requires own { 0x8000 ≤ limit }
    ensures { result ≡ (ltb header.now.type_id limit && permits (header_view header.now) kept.now) }
{
    let rule = |header: &LoadHeader, kept: &[KeptLoad]| -> bool {
        header.type_id < limit && PermitsAll.ask(header, kept)
    };
    let known = TypesBelow { limit };
    answer_of(Asks { rule, known }, header, kept)
}

/// Whether a load of this type is accepted beside these where every one is that may be, and by that
/// rule.
fn answers(alloc: Global, type_id: u16, kept: &[KeptLoad]) -> Result<(bool, bool), Fail> {
    let header = header(alloc, type_id)?;
    let answers = (
        answer_of(PermitsAll, &header, kept),
        refuses_from(0x8000, &header, kept),
    );
    drop(header);
    Ok(answers)
}

#[test]
fn an_interlock_answers_as_its_rule_does(rt: HostRuntime) -> Result<(), Fail> {
    for (type_id, wanted) in [
        (0, (false, false)),
        (1, (true, true)),
        (0x7FFF, (true, true)),
        (0x8000, (true, false)),
        (0xFFFF, (true, false)),
    ] {
        assert_eq!(rt; answers(rt.alloc(), type_id, &[])?, wanted);
    }
    Ok(())
}

#[test]
fn no_load_is_accepted_beside_one_of_its_part_number(rt: HostRuntime) -> Result<(), Fail> {
    let other = KeptLoad {
        part: PartText::read(b"ABC42-0000-0002")?,
        type_id: 8,
    };
    let same = KeptLoad {
        part: PartText::read(b"ABC41-0000-0001")?,
        type_id: 8,
    };
    let beside_other = answers(rt.alloc(), 7, &[other])?;
    let beside_both = answers(rt.alloc(), 7, &[other, same])?;
    assert_eq!(rt; (beside_other, beside_both), ((true, true), (false, false)));
    Ok(())
}
