//! The fields of a line.
ghost use Rattle.totals_report.specs.Cutting.{SplitsRow};

use field_texts::cut;

/// The six fields of a row, as they are written.
#[derive(Drop)]
pub(crate) struct Fields<'a> {
    pub(crate) name: &'a [u8],
    pub(crate) round: &'a [u8],
    pub(crate) survivors: &'a [u8],
    pub(crate) missing: &'a [u8],
    pub(crate) outcome: &'a [u8],
    pub(crate) total: &'a [u8],
}

/// The fields of a line that has six.
pub(crate) fn split_row(line: &[u8]) -> Option<Fields<'_>>
    ensures { SplitsRow line.now result }
{
    let (name, rest) = cut(b',', line)?;
    let (round, rest) = cut(b',', rest)?;
    let (survivors, rest) = cut(b',', rest)?;
    let (missing, rest) = cut(b',', rest)?;
    let (outcome, total) = cut(b',', rest)?;
    match cut(b',', total) {
        None => Some(Fields {
            name,
            round,
            survivors,
            missing,
            outcome,
            total,
        }),
        Some(_) => None,
    }
}
