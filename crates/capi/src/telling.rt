// What a call answers to another language.
ghost use Rattle.std.specs.Prelude.{◌≡◌};
ghost use Rattle.capi.specs.Settings.{answer_number, Told};

use line::Refusal;

// 0, or a refusal's number.
pub(crate) fn answer_number<T: Copy>(answer: Result<T, Refusal>) -> u8
    ensures { result ≡ answer_number answer }
{
    match answer {
        Ok(_) => 0,
        Err(refusal) => u8::from(refusal),
    }
}

// The same, and what was found is written down where the caller wants it.
pub(crate) fn tell<T: Copy>(answer: Result<T, Refusal>, place: &mut T) -> u8
    ensures answer { result ≡ answer_number answer }
    ensures place { Told answer place.new place.old }
{
    if let Ok(found) = &answer {
        *place = *found;
    }
    answer_number(answer)
}
