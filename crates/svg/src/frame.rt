// What every picture begins with, put on a page: its size, the forms and colours, the frame with its axes, the circuit MUF and
// the legend.
// Stays: functions of our own and no `Display`, for the reason in crate `lines`.
#![tactic(auto, using(lines::proofs::Placing::putting))]

ghost use Rattle.std.specs.Prelude.{◌≡◌};
ghost use Rattle.lines.specs.Text.{with_text};
ghost use Rattle.svg.specs.Frame.{size_text, style_text, dots_text, forms_text, call_text, defined_text, head_text};

use lines::Page;

fn put_size<const N: usize>(page: &mut Page<N>, slots: u8)
    ensures { page.new ≡ with_text N page.old (size_text slots) }
{
    let height = 80 + 400 * u64::from(slots);
    page.put_word(b"<svg xmlns='http://www.w3.org/2000/svg' width='700' height='");
    page.put_decimal(height);
    page.put_word(b"' viewBox='0 0 7000 ");
    page.put_decimal(height);
    page.put_word(b"0'>\n");
}

#[tactic(auto, unfolding(crate::specs::Frame::style_text))]
fn put_style<const N: usize>(page: &mut Page<N>)
    ensures { page.new ≡ with_text N page.old style_text }
{
    page.put_word(
        b"<title>Profile and ionogram of a circuit's slots</title>\n\
          <style>text{font:130px sans-serif}.b{font-weight:bold}.n{font-size:110px}.m{text-anchor:middle}.e{text-anchor:end}\
          path{stroke-linejoin:round}.frame,.grid,.true,.virtual,.muf{fill:none;stroke:#000}.frame{stroke-width:10}\
          .grid{stroke:#ccc;stroke-width:5}.true{stroke-width:15;marker:url(#dot)}\
          .virtual{stroke:#d55e00;stroke-width:15;stroke-dasharray:50 30;marker:url(#cross)}\
          .muf{stroke-width:15;stroke-dasharray:100 40 15 40}</style>\n\
          <rect width='7000' height='100%' fill='#fff'/>\n",
    );
}

#[tactic(auto, unfolding(crate::specs::Frame::dots_text))]
fn put_dots<const N: usize>(page: &mut Page<N>)
    ensures { page.new ≡ with_text N page.old dots_text }
{
    page.put_word(
        b"<marker id='dot' markerUnits='userSpaceOnUse' markerWidth='60' markerHeight='60' viewBox='-30 -30 60 60'>\
          <circle r='15'/></marker>\n\
          <marker id='cross' markerUnits='userSpaceOnUse' markerWidth='60' markerHeight='60' viewBox='-30 -30 60 60'>\
          <path d='M-20 -20l40 40m0 -40l-40 40' stroke='#d55e00' stroke-width='12'/></marker>\n",
    );
}

// The forms of the marks.
#[tactic(auto, unfolding(crate::specs::Frame::forms_text))]
fn put_forms<const N: usize>(page: &mut Page<N>)
    ensures { page.new ≡ with_text N page.old forms_text }
{
    page.put_word(
        b"<path id='none' d='M-24 -24l48 48m0 -48l-48 48' stroke='#000' stroke-width='10'/>\n\
          <path id='tail' d='M0 -34l32 58h-64z' fill='#e69f00'/>\n\
          <path id='E' d='M-26 -26h52v52h-52z' fill='#009e73'/>\n\
          <path id='valley' d='M0 -36l36 36l-36 36l-36 -36z' fill='#56b4e9'/>\n\
          <path id='F1' d='M0 34l32 -58h-64z' fill='#cc79a7'/>\n\
          <circle id='F2' r='28' fill='#0072b2'/>\n\
          <circle id='gap' r='24' fill='#fff' stroke='#000' stroke-width='10'/>\n",
    );
}

fn put_call<const N: usize>(page: &mut Page<N>, muf: f32)
    ensures { page.new ≡ with_text N page.old (call_text muf) }
{
    page.put_word(b"<text class='b' x='300' y='240'>Circuit MUF ");
    figures::figure_text::put_figure(page, muf);
    page.put_word(
        b" MHz</text>\n\
          <text class='n e' x='6400' y='240'>Not drawn: what is outside a frame, below zero or not a number.</text>\n",
    );
}

#[tactic(auto, using(lines::proofs::Placing::putting), unfolding(crate::specs::Frame::defined_text))]
fn put_defined<const N: usize>(page: &mut Page<N>)
    ensures { page.new ≡ with_text N page.old defined_text }
{
    page.put_word(b"<defs>\n");
    put_dots(page);
    put_forms(page);
    crate::axes::put_axes(page);
    page.put_word(b"</defs>\n");
}

#[tactic(auto, using(lines::proofs::Placing::putting), unfolding(crate::specs::Frame::head_text))]
pub fn put_head<const N: usize>(page: &mut Page<N>, slots: u8, muf: f32)
    ensures { page.new ≡ with_text N page.old (head_text slots muf) }
{
    put_size(page, slots);
    put_style(page);
    put_defined(page);
    put_call(page, muf);
    crate::legend::put_shapes(page);
    crate::legend::put_lines(page);
}
