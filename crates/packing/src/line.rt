// A line of text as a group.
use crate::field::service;
use crate::figure::Figure;
use crate::group::Group;
use crate::wrong::Wrong;
use market::figures::Figures;
use market::prices::{IntervalPrices, ServicePrices};
use market::quantities::Quantities;
use std::str::{FromStr, SplitWhitespace};
use terms::service::ByService;

// A line up to its comment.
fn without_comment(line: &str) -> &str {
    line.split_once('#').map_or(line, |(before, _)| before)
}

// The next field as what stands there.
fn next<T, F: Fn(&str) -> Result<T, Wrong>>(
    fields: &mut SplitWhitespace<'_>,
    read: F,
) -> Result<T, Wrong>
    requires { F.IsAlwaysCallable read }
{
    read(fields.next().ok_or(Wrong::MissingField)?)
}

fn next_figure(fields: &mut SplitWhitespace<'_>) -> Result<Figure, Wrong> {
    next(fields, Figure::from_str)
}

fn next_ten(fields: &mut SplitWhitespace<'_>) -> Result<Quantities<Figure>, Wrong> {
    Ok(Quantities {
        dasa: next_figure(fields)?,
        rtsa: next_figure(fields)?,
        trs: next_figure(fields)?,
        rtpc: next_figure(fields)?,
        pc: next_figure(fields)?,
        ruc: next_figure(fields)?,
        trp: next_figure(fields)?,
        fq: next_figure(fields)?,
        rfq: next_figure(fields)?,
        inf: next_figure(fields)?,
    })
}

fn next_told(fields: &mut SplitWhitespace<'_>) -> Result<Figures<Figure>, Wrong> {
    Ok(Figures {
        telemetered: ByService {
            up: next_figure(fields)?,
            down: next_figure(fields)?,
            responsive: next_figure(fields)?,
            nonspin: next_figure(fields)?,
            ecrs: next_figure(fields)?,
        },
        npf: next_figure(fields)?,
        lpc: next_figure(fields)?,
    })
}

fn next_capacity(fields: &mut SplitWhitespace<'_>) -> Result<ServicePrices<Figure>, Wrong> {
    Ok(ServicePrices {
        dam: next_figure(fields)?,
        sasm: next_figure(fields)?,
        rsasm: next_figure(fields)?,
    })
}

fn next_real_time(fields: &mut SplitWhitespace<'_>) -> Result<IntervalPrices<Figure>, Wrong> {
    Ok(IntervalPrices {
        rtrsvpor: next_figure(fields)?,
        rtrdp: next_figure(fields)?,
    })
}

// The group of a name with its next fields.
fn group_named(name: &str, fields: &mut SplitWhitespace<'_>) -> Result<Group, Wrong> {
    match name {
        "enrol" => Ok(Group::Enrol {
            qse: next_figure(fields)?,
            load: next_figure(fields)?,
        }),
        "quantities" => Ok(Group::Quantities {
            qse: next_figure(fields)?,
            service: next(fields, service)?,
            ten: next_ten(fields)?,
        }),
        "resource" => Ok(Group::Resource {
            number: next_figure(fields)?,
            qse: next_figure(fields)?,
            class: next_figure(fields)?,
            told: next_told(fields)?,
        }),
        "strike" => Ok(Group::Strike {
            number: next_figure(fields)?,
        }),
        "prices" => Ok(Group::Prices {
            service: next(fields, service)?,
            prices: next_capacity(fields)?,
        }),
        "interval" => Ok(Group::Interval {
            number: next_figure(fields)?,
            prices: next_real_time(fields)?,
        }),
        _ => Err(Wrong::UnknownGroup),
    }
}

// The group of a line, whose fields are parted by white space; a line of none, or of a comment alone, makes no group.
pub fn group_of(line: &str) -> Result<Option<Group>, Wrong> {
    let mut fields = without_comment(line).split_whitespace();
    let Some(name) = fields.next() else {
        return Ok(None);
    };
    let group = group_named(name, &mut fields)?;
    match fields.next() {
        Some(_) => Err(Wrong::ExtraField),
        None => Ok(Some(group)),
    }
}
