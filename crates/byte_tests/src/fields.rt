//! Fields read and written: worked rows, each fault with its place, and random bodies.

use crate::checks::{holds, same, same_at};
use crate::plain_fields::{Place, read_plainly};
use crate::texts::row_bytes;
use fix_fields::{
    Builder, FieldError, Fields, check_body, data_tag_of, is_paired, put_field, put_tagged,
};
use rand_core::utils::NextWord;
use rand_pcg::Pcg32;
use std::alloc::{AllocError, Global};
use std::test::Fail;

#[test]
fn a_data_field_may_hold_soh_and_equals(rt: HostRuntime) -> Result<(), Fail> {
    let text = row_bytes(
        rt.alloc(),
        "35=B|49=BUYER|56=GATE|34=2|52=20260105-09:30:00.000|95=17|96=a|8=FIX.4.4|9=5|b|",
    )?;
    let fields = Fields::read(rt.alloc(), &text)?;
    let raw = row_bytes(rt.alloc(), "a|8=FIX.4.4|9=5|b")?;
    assert!(rt; fields.len() == 7);
    assert!(rt; !fields.is_empty());
    let (tag, value) = fields.at(6);
    same(&rt, &tag, &96);
    assert!(rt; value == raw.as_slice());
    assert!(rt; fields.first(96) == Some(raw.as_slice()));
    assert!(rt; fields.first(8).is_none());
    Ok(())
}

#[test]
fn each_fault_has_its_place(rt: HostRuntime) -> Result<(), Fail> {
    let cases = [
        ("35|11=a|58=b|", FieldError::NoEquals { at: 0 }),
        ("35=D|11|58=b|", FieldError::NoEquals { at: 5 }),
        ("35=D|11=a|58", FieldError::NoEquals { at: 10 }),
        ("035=D|11=a|58=b|", FieldError::BadTag { at: 0 }),
        ("35=D|=a|58=b|", FieldError::BadTag { at: 5 }),
        ("35=D|11=a|1234567890=b|", FieldError::BadTag { at: 10 }),
        ("95=2|96=abc|58=b|", FieldError::BadDataLength { at: 5 }),
        (
            "35=B|95=16|96=a|8=FIX.4.4|9=5|b|",
            FieldError::BadDataLength { at: 11 },
        ),
        ("35=D|11=a|95=x|96=a|", FieldError::BadDataLength { at: 15 }),
        ("35=D", FieldError::NoEnd { at: 0 }),
        ("35=D|11=a", FieldError::NoEnd { at: 5 }),
        ("35=D|96=a|95=b", FieldError::NoEnd { at: 10 }),
        ("35=|11=a|58=b|", FieldError::EmptyValue { at: 0 }),
        ("35=D|11=|58=b|", FieldError::EmptyValue { at: 5 }),
        ("35=D|95=0|96=|", FieldError::EmptyValue { at: 10 }),
        ("0", FieldError::NoEquals { at: 0 }),
        ("|", FieldError::NoEquals { at: 0 }),
        ("0=a|", FieldError::BadTag { at: 0 }),
        ("12345678x=a|", FieldError::BadTag { at: 0 }),
        ("123456789", FieldError::NoEquals { at: 0 }),
        ("1234567890", FieldError::NoEquals { at: 0 }),
        ("123456789=|", FieldError::EmptyValue { at: 0 }),
        ("123456789=a", FieldError::NoEnd { at: 0 }),
    ];
    for (text, want) in cases {
        let text = row_bytes(rt.alloc(), text)?;
        match Fields::read(rt.alloc(), &text) {
            Ok(_) => holds(&rt, false, &want),
            Err(fault) => same(&rt, &fault, &want),
        }
    }
    Ok(())
}

#[test]
fn a_body_is_fit_or_has_a_place(rt: HostRuntime) -> Result<(), Fail> {
    let cases = [
        ("35=D|11=a|95=1|96=||", Ok(())),
        ("", Err(0)),
        ("35=D|11|", Err(5)),
        ("35=0|11|", Err(5)),
        ("35=A|11=a|", Err(0)),
        ("11=a|35=D|", Err(0)),
        ("35=D|35=D|11=a|", Err(5)),
        ("35=D|11=a|52=b|43=Y|", Err(10)),
    ];
    for (text, want) in cases {
        same_at(
            &rt,
            &check_body(&row_bytes(rt.alloc(), text)?),
            &want,
            &text,
        );
    }
    Ok(())
}

#[test]
#[tactic(auto, unfolding(fix_fields::specs::Pairs::data_tag_of, fix_fields::specs::Pairs::pair_of))]
fn a_builder_writes_the_text(rt: HostRuntime) -> Result<(), Fail> {
    let alloc = rt.alloc();
    let mut builder = Builder::new(alloc);
    builder.field(alloc, 35, b"D")?;
    builder.field(alloc, 95, b"3")?;
    builder.field(alloc, 96, b"a\x01b")?;
    let want = row_bytes(rt.alloc(), "35=D|95=3|96=a|b|")?;
    same(&rt, &builder.finish().as_slice(), &want.as_slice());
    same(&rt, &data_tag_of(95), &Some(96));
    same(&rt, &data_tag_of(96), &None);
    assert!(rt; is_paired(89) && !is_paired(92));
    Ok(())
}

#[test]
fn a_field_is_put_behind_the_text(rt: HostRuntime) -> Result<(), Fail> {
    let mut text = row_bytes(rt.alloc(), "35=D|")?;
    put_field(&mut text, 999_999_999, b"a")?;
    put_field(&mut text, 1, b"")?;
    put_tagged(&mut text, b"58", b"b")?;
    let want = row_bytes(rt.alloc(), "35=D|999999999=a|1=|58=b|")?;
    same(&rt, &text, &want);
    Ok(())
}

const SNIPPETS: [&str; 24] = [
    "35=D|",
    "11=a|",
    "95=3|",
    "96=a|b|",
    "96=abc|",
    "90=0|",
    "91=|",
    "93=1|",
    "89=||",
    "618=2|",
    "619=xy|",
    "354=x|",
    "355=a|",
    "95=00000000000000000002|",
    "95=4294967295|",
    "58=",
    "=",
    "|",
    "0",
    "08=a|",
    "999999999=z|",
    "1234567890=z|",
    "5x=a|",
    "445=5|446=a|b=c|",
];

/// Some snippets, one behind the other.
fn body_of(alloc: Global, random: &mut Pcg32) -> Result<Vec<u8>, AllocError> {
    let mut body = Vec::new(alloc);
    for _ in 0..4 {
        let snippet = SNIPPETS[(random.next_word() % 24) as usize];
        body.extend_from_slice(&row_bytes(alloc, snippet)?)?;
    }
    Ok(body)
}

/// Whether these are the fields at the places.
fn are_at(body: &[u8], fields: &Fields<'_>, places: &[Place]) -> bool {
    fields.len() == places.len()
        && places.iter().enumerate().all(|(i, place)| {
            i < fields.len()
                && fields.at(i) == (place.tag, body.get(place.start..place.end).unwrap_or(&[]))
        })
}

#[test]
fn random_bodies_are_read_as_the_rules_say(rt: HostRuntime) -> Result<(), Fail> {
    let mut random = Pcg32::new(9, 1);
    let mut lawful = 0u32;
    for _ in 0..1000 {
        let body = body_of(rt.alloc(), &mut random)?;
        match (
            Fields::read(rt.alloc(), &body),
            read_plainly(rt.alloc(), &body)?,
        ) {
            (Ok(fields), Ok(places)) => {
                holds(&rt, are_at(&body, &fields, &places), &body);
                lawful = lawful.wrapping_add(1);
            }
            (Err(fault), Err(wanted)) => same_at(&rt, &fault, &wanted, &body),
            _ => holds(&rt, false, &body),
        }
    }
    assert!(rt; lawful > 50);
    Ok(())
}
