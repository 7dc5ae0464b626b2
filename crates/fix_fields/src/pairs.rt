//! Which length field says how long a data field is.

ghost use Rattle.std.specs.Prelude.{◌≡◌};
ghost use Rattle.fix_fields.specs.Pairs.{pair_of, data_tag_of, is_paired};

/// The tags of a length field and of its data field, of which `tag` is one: each pair of FIX 4.4
/// whose data field may have any bytes.
#[tactic(auto, unfolding(crate::specs::Pairs::pair_of))]
fn pair_of(tag: u32) -> Option<(u32, u32)>
    ensures { result ≡ pair_of tag }
{
    match tag {
        90 | 91 => Some((90, 91)), // SecureDataLen, SecureData
        93 | 89 => Some((93, 89)), // SignatureLength, Signature
        95 | 96 => Some((95, 96)), // RawDataLength, RawData
        212 | 213 => Some((212, 213)), // XmlDataLen, XmlData
        348 | 349 => Some((348, 349)), // EncodedIssuerLen, EncodedIssuer
        350 | 351 => Some((350, 351)), // EncodedSecurityDescLen, EncodedSecurityDesc
        352 | 353 => Some((352, 353)), // EncodedListExecInstLen, EncodedListExecInst
        354 | 355 => Some((354, 355)), // EncodedTextLen, EncodedText
        356 | 357 => Some((356, 357)), // EncodedSubjectLen, EncodedSubject
        358 | 359 => Some((358, 359)), // EncodedHeadlineLen, EncodedHeadline
        360 | 361 => Some((360, 361)), // EncodedAllocTextLen, EncodedAllocText
        362 | 363 => Some((362, 363)), // EncodedUnderlyingIssuerLen, EncodedUnderlyingIssuer
        364 | 365 => Some((364, 365)), // EncodedUnderlyingSecurityDescLen, ..SecurityDesc
        445 | 446 => Some((445, 446)), // EncodedListStatusTextLen, EncodedListStatusText
        618 | 619 => Some((618, 619)), // EncodedLegIssuerLen, EncodedLegIssuer
        621 | 622 => Some((621, 622)), // EncodedLegSecurityDescLen, EncodedLegSecurityDesc
        _ => None,
    }
}

#[tactic(auto, unfolding(crate::specs::Pairs::data_tag_of))]
/// The tag of the data field that belongs to a length field of this tag, where `tag` is the tag of
/// a length field.
pub fn data_tag_of(tag: u32) -> Option<u32>
    ensures { result ≡ data_tag_of tag }
{
    match pair_of(tag) {
        Some((length, data)) if length == tag => Some(data),
        _ => None,
    }
}

#[tactic(auto, unfolding(crate::specs::Pairs::is_paired))]
/// Whether the tag is that of a length field or of a data field.
pub fn is_paired(tag: u32) -> bool
    ensures { result ≡ is_paired tag }
{
    pair_of(tag).is_some()
}
