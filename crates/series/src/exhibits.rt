// The laws of series speak of something: theorems about their definitions.
ghost use Rattle.series.specs.Exhibits.{ExactSeriesClean, LawsHaveInstances};

use model::settings::Settings;

// Under any settings, frames of exact pulses are a clean series, whatever they carry.
pub fn exact_series_are_clean(settings: Settings)
    ensures { ExactSeriesClean settings }
{
    let _ = settings;
}

// There are clean frames at both ends of the window, a moved frame that still gives a frame, and one that gives a fault.
pub fn laws_have_instances()
    ensures { LawsHaveInstances }
{}
