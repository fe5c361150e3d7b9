// The printed profile page for other languages.
ghost use Rattle.std.specs.Prelude.{◌≡◌, length};
ghost use Rattle.profile_text.specs.Page as Page;
ghost use Rattle.terrain.specs.Page.{printed_out};

// The page's length; or the refusal's number, and 0.
#[repr(C)]
#[derive(Clone, Copy)]
pub struct TerrainPrinted {
    pub number: u32,
    pub length: usize,
}

pub fn terrain_profile_page(samples: &[i16], page: u32, out: &mut [u8]) -> TerrainPrinted
    ensures value { result ≡ printed_out (Page.printed samples.now page (length out.old)) }
    ensures out_after { out.new ≡ Page.written samples.now page out.old }
{
    match profile_text::page::page(samples, page, out) {
        Ok(length) => TerrainPrinted { number: 0, length },
        Err(e) => TerrainPrinted {
            number: e.number(),
            length: 0,
        },
    }
}
