// The functions of port_figures for callers in C, with the same contracts.
#![tactic(auto)]

ghost use Rattle.std.specs.Prelude.{◌≡◌};
ghost use Rattle.port_figures.specs.Exports.{figure_answer, figure_left};

#[unsafe(no_mangle)]
pub extern "C" fn port_figure(muf: u32, out: &mut [u8]) -> u32
    ensures { (result ≡ figure_answer out.old) × (out.new ≡ figure_left muf out.old) }
{
    port_figures::port_figure(muf, out)
}
