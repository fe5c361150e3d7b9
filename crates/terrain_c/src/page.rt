// The page of a profile.
ghost use Rattle.std.specs.Prelude.{◌≡◌, length};
ghost use Rattle.profile_text.specs.Page as Page;
ghost use Rattle.terrain.specs.Page.{printed_out};

use terrain::page::TerrainPrinted;

#[unsafe(no_mangle)]
pub extern "C" fn terrain_profile_page(samples: &[i16], page: u32, out: &mut [u8]) -> TerrainPrinted
    ensures value { result ≡ printed_out (Page.printed samples.now page (length out.old)) }
    ensures out_after { out.new ≡ Page.written samples.now page out.old }
{
    terrain::page::terrain_profile_page(samples, page, out)
}
