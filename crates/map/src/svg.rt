// What is written: text, numbers and the fixed parts of the picture.
use std::io;

pub fn put(rt: &impl Print, text: &[u8]) -> io::Result<()> {
    rt.write_all(text)
}

// An attribute's number.
pub fn field(rt: &impl Print, before: &[u8], n: u64) -> io::Result<()> {
    put(rt, before)?;
    rt.print(n)
}

// A point of a line.
pub fn point(rt: &impl Print, x: u64, y: u64) -> io::Result<()> {
    rt.print(x)?;
    field(rt, b",", y)?;
    put(rt, b" ")
}

fn is_lead(b: u8) -> bool {
    193 < b && b < 224
}

fn is_follow(b: u8) -> bool {
    127 < b && b < 192
}

// A byte that stands for itself in a text of the picture: printed letters, and the pairs of bytes that letters with marks have.
fn is_plain(text: &[u8], i: usize) -> bool {
    let b = pack::bytes::byte_at(text, i);
    if is_lead(b) {
        return is_follow(pack::bytes::byte_at(text, i.wrapping_add(1)));
    }
    if is_follow(b) {
        return is_lead(pack::bytes::byte_at(text, i.wrapping_sub(1)));
    }
    31 < b && b < 127 && b != b'<' && b != b'&'
}

// A name as text: what would not be text is a question mark.
pub fn name(rt: &impl Print, text: &[u8]) -> io::Result<()> {
    for (i, &b) in text.iter().enumerate() {
        if is_plain(text, i) {
            put(rt, &[b])?;
        } else {
            put(rt, b"?")?;
        }
    }
    Ok(())
}

// The page, and how each kind of thing is drawn: classes by width and dash.
pub fn head(rt: &impl Print) -> io::Result<()> {
    put(
        rt,
        b"<svg xmlns=\"http://www.w3.org/2000/svg\" width=\"210mm\" height=\"297mm\" viewBox=\"0 0 21000 29700\">\n<style>\n",
    )?;
    put(
        rt,
        b"text{font-family:sans-serif;font-size:340px}.title{font-size:560px}.small{font-size:260px}.tick{font-size:260px;text-anchor:middle}.box{fill:#fff;stroke:#888;stroke-width:12}.missing{fill:url(#hatch)}\n",
    )?;
    put(
        rt,
        b".leg,.matched,.ahead,.line{fill:none;stroke:#000;stroke-linejoin:round}.leg{stroke-width:14}.c1{stroke-width:90}.c2{stroke-width:76}.c3{stroke-width:62}.c4{stroke-width:50}.c5{stroke-width:40}.c6{stroke-width:30}.c7{stroke-width:20}\n",
    )?;
    put(
        rt,
        b".c8{stroke-width:30;stroke-dasharray:150 60}.c9{stroke-width:24;stroke-dasharray:60 50}.c10{stroke-width:30;stroke-dasharray:10 50;stroke-linecap:round}.oneway{marker-end:url(#arrow)}\n",
    )?;
    put(
        rt,
        b".matched{stroke:#bbb;stroke-width:190;stroke-linecap:round}.ahead{stroke-width:60;stroke-dasharray:40 60;marker-end:url(#arrow)}.node{fill:#fff;stroke:#000;stroke-width:14}.fix{fill:#000}.damaged{fill:#eee;stroke:#000;stroke-width:30}\n",
    )?;
    put(
        rt,
        b"</style>\n<defs><pattern id=\"hatch\" width=\"200\" height=\"200\" patternUnits=\"userSpaceOnUse\"><path d=\"M0 200L200 0\" stroke=\"#ccc\" stroke-width=\"10\"/></pattern>",
    )?;
    put(
        rt,
        b"<marker id=\"arrow\" viewBox=\"0 0 10 10\" refX=\"10\" refY=\"5\" markerUnits=\"userSpaceOnUse\" markerWidth=\"300\" markerHeight=\"240\" orient=\"auto\"><path d=\"M0 0L10 5L0 10Z\"/></marker></defs>\n<rect width=\"21000\" height=\"29700\" fill=\"#fff\"/>\n",
    )
}

// The names of the classes and the other signs.
pub fn legend(rt: &impl Print) -> io::Result<()> {
    put(
        rt,
        b"<g class=\"legend\" transform=\"translate(2000,27000)\">\n",
    )?;
    put(
        rt,
        b"<path class=\"line c1\" d=\"M0 0h900\"/><text class=\"small\" x=\"1050\" y=\"90\">trunk</text><path class=\"line c2\" d=\"M0 450h900\"/><text class=\"small\" x=\"1050\" y=\"540\">primary</text><path class=\"line c3\" d=\"M0 900h900\"/><text class=\"small\" x=\"1050\" y=\"990\">secondary</text><path class=\"line c4\" d=\"M0 1350h900\"/><text class=\"small\" x=\"1050\" y=\"1440\">tertiary</text>\n",
    )?;
    put(
        rt,
        b"<path class=\"line c5\" d=\"M3400 0h900\"/><text class=\"small\" x=\"4450\" y=\"90\">unclassified</text><path class=\"line c6\" d=\"M3400 450h900\"/><text class=\"small\" x=\"4450\" y=\"540\">residential</text><path class=\"line c7\" d=\"M3400 900h900\"/><text class=\"small\" x=\"4450\" y=\"990\">service</text><path class=\"line c8\" d=\"M3400 1350h900\"/><text class=\"small\" x=\"4450\" y=\"1440\">track</text>\n",
    )?;
    put(
        rt,
        b"<path class=\"line c9\" d=\"M6900 0h900\"/><text class=\"small\" x=\"7950\" y=\"90\">cycleway</text><path class=\"line c10\" d=\"M6900 450h900\"/><text class=\"small\" x=\"7950\" y=\"540\">path</text><path class=\"line\" stroke-width=\"14\" d=\"M6900 900h900\"/><text class=\"small\" x=\"7950\" y=\"990\">other class</text><path class=\"line c5 oneway\" d=\"M6900 1350h900\"/><text class=\"small\" x=\"7950\" y=\"1440\">oneway</text>\n",
    )?;
    put(
        rt,
        b"<circle cx=\"10700\" cy=\"0\" r=\"55\" fill=\"#fff\" stroke=\"#000\" stroke-width=\"14\"/><text class=\"small\" x=\"11350\" y=\"90\">junction or end</text><circle cx=\"10700\" cy=\"450\" r=\"70\"/><text class=\"small\" x=\"11350\" y=\"540\">fix, with its number</text><path d=\"M10300 900h800\" stroke=\"#bbb\" stroke-width=\"190\" stroke-linecap=\"round\"/><text class=\"small\" x=\"11350\" y=\"990\">leg that a fix was matched to</text>\n",
    )?;
    put(
        rt,
        b"<path class=\"ahead\" d=\"M10250 1350h900\"/><text class=\"small\" x=\"11350\" y=\"1440\">ahead of the last fix, to the leg's end</text><rect class=\"missing\" x=\"10250\" y=\"1620\" width=\"900\" height=\"300\" stroke=\"#888\" stroke-width=\"12\"/><text class=\"small\" x=\"11350\" y=\"1890\">no tile</text>\n</g>\n",
    )
}
