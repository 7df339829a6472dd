ghost use Rattle.std.specs.Prelude.{◌≡◌, ◌<◌, length};
ghost use Rattle.target_incremental.specs.Ages.{pair_is_old, any_is_old, is_missing_or_older};
ghost use Rattle.target_incremental.specs.Newest.{settled_stamp, newest_of, any_older};

use msb_files::FileView;
use msb_values::Text;

/// Whether an output is out of date against an input: the request's journal has written or removed
/// one of them, one of them is missing, or the input's stamp is greater. Equal stamps are up to
/// date. It takes no memory. (How to build incrementally.)
pub fn pair_is_old(view: &FileView<'_>, input: &str, output: &str) -> bool
    ensures { result ≡ pair_is_old view.now input.now output.now }
{
    is_missing_or_older(settled_stamp(view, input), settled_stamp(view, output))
}

/// Whether any output is out of date against any input, in a time that grows with the number of
/// both: each output is compared with the newest input.
pub(crate) fn any_is_old(view: &FileView<'_>, inputs: &[Text], outputs: &[Text]) -> bool
    requires { 0 < length inputs.now }
    ensures { result ≡ any_is_old view.now inputs.now outputs.now }
{
    let newest = newest_of(view, inputs);
    any_older(view, newest, outputs)
}

// The stamp of a file that is there and that the request's journal has neither written nor removed.
fn settled_stamp(view: &FileView<'_>, path: &str) -> Option<u64>
    ensures { result ≡ settled_stamp view.now path.now }
{
    if view.has_act(path) {
        None
    } else {
        view.stamp(path)
    }
}

fn is_missing_or_older(input: Option<u64>, output: Option<u64>) -> bool
    ensures { result ≡ is_missing_or_older input output }
{
    match (input, output) {
        (Some(input), Some(output)) => output < input,
        _ => true,
    }
}

// The greatest stamp of these files, if each has one.
fn newest_of(view: &FileView<'_>, paths: &[Text]) -> Option<u64>
    ensures { result ≡ newest_of view.now paths.now }
{
    let mut newest = 0;
    for path in paths {
        match settled_stamp(view, path.as_str()) {
            Some(stamp) => newest = newest.max(stamp),
            None => return None,
        }
    }
    Some(newest)
}

fn any_older(view: &FileView<'_>, newest: Option<u64>, outputs: &[Text]) -> bool
    ensures { result ≡ any_older view.now newest outputs.now }
{
    outputs.iter().any(|output| is_missing_or_older(newest, settled_stamp(view, output.as_str())))
}
