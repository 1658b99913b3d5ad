// The answers of the calls that are about a file alone and are lent no desk, and each as one number for C.
ghost use Rattle.std.specs.Prelude.{◌≡◌};
ghost use Rattle.calls.specs.Answer.{file_packed, FileSmall};

use crate::CODE;
use word::Fault;

// What such a call answers: a refusal; assigned; needs, with what is needed as one number; resealed.
// Stays one enum, its refusals in it: an answer is one of a list, and C gets one number.
#[derive(Clone, Copy)]
pub enum FileAnswer {
    Refused(Fault),
    Assigned,
    Needs(u64),
    Resealed,
}

// The answer as one number: its code times 2^32, and its value.
pub fn pack_file(a: FileAnswer) -> u64
    requires { FileSmall a }
    ensures { result ≡ file_packed a }
{
    match a {
        FileAnswer::Refused(f) => crate::pack_fault(f),
        FileAnswer::Assigned => 69 * CODE,
        FileAnswer::Needs(n) => 70 * CODE + n,
        FileAnswer::Resealed => 72 * CODE,
    }
}
