// What the sheets are held against.
ghost use Rattle.std.specs.Prelude.{◌≡◌, map, length};
ghost use Rattle.card.specs.Fins.{fin_keys};
ghost use Rattle.card.specs.Headers.{header_keys};
ghost use Rattle.card.specs.Reference.{reference_modes};
ghost use Rattle.fin.specs.FinKinds.{fin_kind};
ghost use Rattle.header.specs.HeaderKinds.{header_kind};
ghost use Rattle.resistance.specs.Expressions.{printed};

use crate::kind::CardKind;
use fin::fin_joint::FinJoint;
use header::header_joint::HeaderJoint;

// As the expressions print them: the reference fin card in modes 1, 2, 4, 5, 8, 11, 22 and 25, and the reference header card in
// modes 1, 2, 3, 4, 6 and 8.
pub fn reference_figures() -> [u64; 14]
    ensures { result ≡ map printed reference_modes }
{
    [
        173278, 217995, 305857, 265544, 147559, 197431, 488636, 293181, 451584, 423944, 1171163,
        440058, 422118, 248000,
    ]
}

// The fields of a header card: one for each key of its text.
pub fn header_field_count() -> usize
    ensures keys { result ≡ length header_keys }
    ensures kind { result ≡ header_kind.FIELDS }
{
    HeaderJoint::key_table().len()
}

// The same of a fin card.
pub fn fin_field_count() -> usize
    ensures keys { result ≡ length fin_keys }
    ensures kind { result ≡ fin_kind.FIELDS }
{
    FinJoint::key_table().len()
}
