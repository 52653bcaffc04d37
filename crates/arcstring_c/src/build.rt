// The calls that build a string of a list of points.
ghost use Rattle.std.specs.Prelude.{◌≡◌, length};
ghost use Rattle.arcstring_check.specs.Answer.{leaves};
ghost use Rattle.arcstring_build.specs.Build.{build, build_flagged, built_floats, built_buoys};
ghost use Rattle.arcstring_put.specs.Put.{answer_number, left_in, flag};
ghost use Rattle.arcstring_calls.specs.Numbers.{vertex_count, closed_byte};

#[unsafe(no_mangle)]
pub extern "C" fn arcstring_build(
    points: &[f64],
    buoys: &[u32],
    out: &mut [f64],
    out_buoys: &mut [u32],
    count: &mut usize,
    closed: &mut u8,
) -> u32
    ensures value { result ≡ answer_number (build points.now buoys.now (length out.old) (length out_buoys.old)) }
    ensures out_after { out.new ≡ leaves
        (built_floats (build points.now buoys.now (length out.old) (length out_buoys.old))) out.old }
    ensures out_buoys_after { out_buoys.new ≡ leaves
        (built_buoys (build points.now buoys.now (length out.old) (length out_buoys.old)))
        out_buoys.old }
    ensures count_after { count.new ≡ left_in vertex_count
        (build points.now buoys.now (length out.old) (length out_buoys.old)) count.old }
    ensures closed_after { closed.new ≡ left_in closed_byte
        (build points.now buoys.now (length out.old) (length out_buoys.old)) closed.old }
{
    arcstring_calls::build::arcstring_build(points, buoys, out, out_buoys, count, closed)
}

#[unsafe(no_mangle)]
pub extern "C" fn arcstring_build_flagged(
    points: &[f64],
    buoys: &[u32],
    closed: u8,
    out: &mut [f64],
    out_buoys: &mut [u32],
    count: &mut usize,
) -> u32
    ensures value { result ≡ answer_number (build_flagged points.now buoys.now (flag closed) (length out.old)
        (length out_buoys.old)) }
    ensures out_after { out.new ≡ leaves
        (built_floats (build_flagged points.now buoys.now (flag closed) (length out.old) (length out_buoys.old)))
        out.old }
    ensures out_buoys_after { out_buoys.new ≡ leaves
        (built_buoys (build_flagged points.now buoys.now (flag closed) (length out.old) (length out_buoys.old)))
        out_buoys.old }
    ensures count_after { count.new ≡ left_in vertex_count
        (build_flagged points.now buoys.now (flag closed) (length out.old) (length out_buoys.old))
        count.old }
{
    arcstring_calls::build::arcstring_build_flagged(points, buoys, closed, out, out_buoys, count)
}
