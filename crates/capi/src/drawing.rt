// Drawing for programs in other languages.
ghost use Rattle.std.specs.Prelude.{◌≡◌, length, IfOk};
ghost use Rattle.picture.specs.Drawing.{AsSentAt};
ghost use Rattle.capi.specs.Settings.{answer_number, Filled, Told, end_times};
ghost use Rattle.capi.specs.Drawing.{draw_result, drawing};

use super::numbers::EndNumbers;
use super::telling::tell;
use ends::Timing;
use line::Refusal;
use picture::draw;

// Draws the frames of the characters into the picture and says how many bytes they take.
#[unsafe(no_mangle)]
pub extern "C" fn hotskrebi_draw(
    end: &EndNumbers,
    characters: &[u16],
    picture: &mut [u8],
    written: &mut usize,
) -> u8
    ensures answer { result ≡ answer_number (draw_result end.now characters.now (length picture.old)) }
    ensures picture { Filled (draw_result end.now characters.now (length picture.old)) (drawing end.now characters.now) picture.new picture.old }
    ensures written { Told (draw_result end.now characters.now (length picture.old)) written.new written.old }
    ensures sent { IfOk (end_times end.now) (λ t. AsSentAt t characters.now) }
{
    tell(draw_at(end, characters, picture), written)
}

fn draw_at(end: &EndNumbers, characters: &[u16], picture: &mut [u8]) -> Result<usize, Refusal>
    ensures answer { result ≡ draw_result end.now characters.now (length picture.old) }
    ensures picture { Filled result (drawing end.now characters.now) picture.new picture.old }
    ensures sent { IfOk (end_times end.now) (λ t. AsSentAt t characters.now) }
{
    draw(&Timing::try_from(*end)?, characters, picture)
}
