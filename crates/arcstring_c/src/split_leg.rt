// The call that splits a leg at points.
ghost use Rattle.std.specs.Prelude.{◌≡◌, length};
ghost use Rattle.arcstring_check.specs.Answer.{leaves, map_answer};
ghost use Rattle.arcstring_split_leg.specs.SplitLeg.{split_leg, of_pieces, leg_floats};
ghost use Rattle.arcstring_put.specs.Put.{answer_number, left_in, leg_of_six};
ghost use Rattle.arcstring_calls.specs.Numbers.{pieces_written};

#[unsafe(no_mangle)]
pub extern "C" fn arcstring_split_leg(
    leg: &[f64; 6],
    points: &[f64],
    out: &mut [f64],
    pieces: &mut usize,
) -> u32
    ensures value { result ≡ answer_number (split_leg (leg_of_six leg.now) points.now (length out.old)) }
    ensures out_after { out.new ≡ leaves
        (map_answer (of_pieces leg_floats) (split_leg (leg_of_six leg.now) points.now (length out.old))) out.old }
    ensures pieces_after { pieces.new ≡ left_in pieces_written (split_leg (leg_of_six leg.now) points.now (length out.old))
        pieces.old }
{
    arcstring_calls::split_leg::arcstring_split_leg(leg, points, out, pieces)
}
