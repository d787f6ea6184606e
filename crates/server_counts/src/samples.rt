//! The lines of Prometheus' text form, version 0.0.4.
ghost use Rattle.std.specs.Prelude.{◌≡◌, ◌++◌, OnOk, flat_map, string_bytes};
ghost use Rattle.server_counts.specs.Samples.{bucket_text, bucketed_text, build_sample, build_text, code_text, codes_text, described, head_text, histogram_text, one_text, sample_text, times_text, totals_text};

use crate::family::{Family, FamilyKind};
use crate::histogram::{Bucket, TimeCounts};
use crate::refusals::CodeCount;
use std::alloc::AllocError;
use std::fmt::Write;

/// Appends what a family is.
fn put_head(text: &mut String, family: Family) -> Result<(), AllocError>
    ensures { OnOk result (string_bytes text.new ≡ string_bytes text.old ++ head_text family) }
{
    put_described(text, family.name(), family.help(), family.kind())
}

// Appends a line with the help of a family, and one with its kind.
fn put_described(
    text: &mut String,
    name: &str,
    help: &str,
    kind: FamilyKind,
) -> Result<(), AllocError>
    ensures { OnOk result (string_bytes text.new ≡ string_bytes text.old ++ described name.now help.now kind) }
{
    write!(
        text,
        "# HELP vindrughe_{name} {help}\n# TYPE vindrughe_{name} {kind}\n"
    )
}

/// Appends a family of one sample.
pub fn put_one(text: &mut String, family: Family, value: u64) -> Result<(), AllocError>
    ensures { OnOk result (string_bytes text.new ≡ string_bytes text.old ++ one_text family value) }
{
    put_head(text, family)?;
    put_sample(text, family.name(), value)
}

// Appends a sample without labels.
fn put_sample(text: &mut String, name: &str, value: u64) -> Result<(), AllocError>
    ensures { OnOk result (string_bytes text.new ≡ string_bytes text.old ++ sample_text name.now value) }
{
    write!(text, "vindrughe_{name} {value}\n")
}

/// Appends the family that says which build of the program this is.
pub fn put_build(
    text: &mut String,
    family: Family,
    version: &str,
    proved: &str,
) -> Result<(), AllocError>
    ensures { OnOk result (string_bytes text.new ≡ string_bytes text.old ++ build_text family version.now proved.now) }
{
    put_head(text, family)?;
    put_build_sample(text, family.name(), version, proved)
}

// Appends the sample of a build.
fn put_build_sample(
    text: &mut String,
    name: &str,
    version: &str,
    proved: &str,
) -> Result<(), AllocError>
    ensures { OnOk result (string_bytes text.new ≡ string_bytes text.old
        ++ build_sample name.now version.now proved.now) }
{
    write!(
        text,
        "vindrughe_{name}{{proved=\"{proved}\",version=\"{version}\"}} 1\n"
    )
}

/// Appends a family of one sample for each number of a refusal.
pub fn put_codes(text: &mut String, family: Family, counts: &[CodeCount]) -> Result<(), AllocError>
    ensures { OnOk result (string_bytes text.new ≡ string_bytes text.old ++ codes_text family counts.now) }
{
    put_head(text, family)?;
    put_code_samples(text, family.name(), counts)
}

// Appends the samples of the numbers of refusals.
fn put_code_samples(text: &mut String, name: &str, counts: &[CodeCount]) -> Result<(), AllocError>
    ensures { OnOk result (string_bytes text.new ≡ string_bytes text.old ++ flat_map (code_text name.now) counts.now) }
{
    for counted in counts {
        put_code(text, name, *counted)?;
    }
    Ok(())
}

// Appends the sample of a number of a refusal.
fn put_code(text: &mut String, name: &str, counted: CodeCount) -> Result<(), AllocError>
    ensures { OnOk result (string_bytes text.new ≡ string_bytes text.old ++ code_text name.now counted) }
{
    let CodeCount { code, count } = counted;
    write!(text, "vindrughe_{name}{{code=\"{code}\"}} {count}\n")
}

/// Appends a histogram of times in seconds.
pub fn put_times(text: &mut String, family: Family, times: &TimeCounts) -> Result<(), AllocError>
    ensures { OnOk result (string_bytes text.new ≡ string_bytes text.old ++ times_text family times.now) }
{
    let buckets = times.buckets.as_slice();
    put_histogram(text, family, buckets, times.micros, times.count())
}

// Appends a histogram with these buckets, this sum and this count.
fn put_histogram(
    text: &mut String,
    family: Family,
    buckets: &[Bucket],
    micros: u64,
    count: u64,
) -> Result<(), AllocError>
    ensures { OnOk result (string_bytes text.new ≡ string_bytes text.old
        ++ histogram_text family buckets.now micros count) }
{
    put_bucketed(text, family, buckets)?;
    put_totals(text, family.name(), micros, count)
}

// Appends what a histogram is, and its buckets.
fn put_bucketed(text: &mut String, family: Family, buckets: &[Bucket]) -> Result<(), AllocError>
    ensures { OnOk result (string_bytes text.new ≡ string_bytes text.old ++ bucketed_text family buckets.now) }
{
    put_head(text, family)?;
    put_buckets(text, family.name(), buckets)
}

// Appends the buckets of a histogram.
fn put_buckets(text: &mut String, name: &str, buckets: &[Bucket]) -> Result<(), AllocError>
    ensures { OnOk result (string_bytes text.new ≡ string_bytes text.old ++ flat_map (bucket_text name.now) buckets.now) }
{
    for bucket in buckets {
        put_bucket(text, name, *bucket)?;
    }
    Ok(())
}

// Appends a bucket of a histogram.
fn put_bucket(text: &mut String, name: &str, bucket: Bucket) -> Result<(), AllocError>
    ensures { OnOk result (string_bytes text.new ≡ string_bytes text.old ++ bucket_text name.now bucket) }
{
    let Bucket { bound, upto } = bucket;
    write!(text, "vindrughe_{name}_bucket{{le=\"{bound}\"}} {upto}\n")
}

// Appends the sum and the count of a histogram.
fn put_totals(text: &mut String, name: &str, micros: u64, count: u64) -> Result<(), AllocError>
    ensures { OnOk result (string_bytes text.new ≡ string_bytes text.old ++ totals_text name.now micros count) }
{
    write!(
        text,
        "vindrughe_{name}_sum {micros}e-6\nvindrughe_{name}_count {count}\n"
    )
}
