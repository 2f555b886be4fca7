// The services of settlement as C calls them (include/sayarimu.h); settle_c_c exports each under its name. Each takes what its service takes, promises what it
// promises, and answers 0 for accepted, else number + 256 x place (01 "Refusal numbers": "A refusal returns its number and a place, and the call has written nothing.").
#![tactic(auto)]

ghost use Rattle.plan_checks.specs.Handed.{handed};
ghost use Rattle.settle_c.specs.Promised.{ResidualPromised, CurvePromised, DistributionPromised, PeriodisationPromised, ReconciliationPromised, AmountsPromised, InvoicePromised, PlanPromised};

use answer_code::code;

// RESIDUAL: the residual of each hour into `out`.
pub fn settle_residual(
    statuses: &[u8],
    nets: &[i64],
    productions: &[u64],
    hourlies: &[u64],
    flexes: &[u64],
    out: &mut [u32],
) -> u64
    ensures { ResidualPromised statuses.now nets.now productions.now hourlies.now flexes.now
        out.old result out.new }
{
    let answered = residual_service::residual(statuses, nets, productions, hourlies, flexes, out);
    code(answered)
}

// CURVE: the curve number of each hour into `out`.
pub fn settle_curve(residuals: &[u32], w: u64, out: &mut [u32]) -> u64
    ensures { CurvePromised residuals.now w out.old result out.new }
{
    let answered = curve_numbers::curve(residuals, w, out);
    code(answered)
}

// DISTRIBUTION: the figures of every hour into `out`, hour by hour and within an hour party by party.
pub fn settle_distribution(shares: &[u64], residuals: &[u32], out: &mut [i64]) -> u64
    ensures { DistributionPromised shares.now residuals.now out.old result out.new }
{
    let answered = distribute_service::distribution(shares, residuals, out);
    code(answered)
}

// PERIODISATION: a reading's growth in each hour into `out`.
pub fn settle_periodisation(e: u64, weights: &[u32], out: &mut [u32]) -> u64
    ensures { PeriodisationPromised e weights.now out.old result out.new }
{
    let answered = periodise_service::periodisation(e, weights, out);
    code(answered)
}

// RECONCILIATION OF ONE HOUR: the loss into `loss_wh`, the differences and the amounts into their lists.
pub fn settle_reconciliation(
    residual_wh: u32,
    distributed_wh: &[i64],
    periodised_wh: &[u32],
    carrier: usize,
    price_ore: i64,
    differences_wh: &mut [i64],
    amounts_millionths: &mut [i64],
    loss_wh: &mut i64,
) -> u64
    ensures { ReconciliationPromised residual_wh distributed_wh.now periodised_wh.now carrier price_ore
        differences_wh.old amounts_millionths.old loss_wh.old
        result differences_wh.new amounts_millionths.new loss_wh.new }
{
    let answered = reconcile_service::reconciliation(
        residual_wh,
        distributed_wh,
        periodised_wh,
        carrier,
        price_ore,
        differences_wh,
        amounts_millionths,
    );
    match answered {
        Ok(loss) => {
            *loss_wh = loss;
            0
        }
        Err(refused) => code(Err(refused)),
    }
}

// AMOUNTS: each difference times the price of its hour into `amounts_millionths`.
pub fn settle_amounts(
    differences_wh: &[i64],
    parties: usize,
    prices_ore: &[i64],
    amounts_millionths: &mut [i64],
) -> u64
    ensures { AmountsPromised differences_wh.now parties prices_ore.now amounts_millionths.old
        result amounts_millionths.new }
{
    let answered = amounts_service::amounts(
        differences_wh,
        parties,
        prices_ore,
        amounts_millionths,
    );
    code(answered)
}

// INVOICE: the whole øre of each exact amount into `out_ore`, adding up to 0.
pub fn settle_invoice(amounts_millionths: &[i64], out_ore: &mut [i64]) -> u64
    ensures { InvoicePromised amounts_millionths.now out_ore.old result out_ore.new }
{
    let answered = invoice_service::invoice(amounts_millionths, out_ore);
    code(answered)
}

// PLANNER: of the record of each month a, b, the weight before it and the weight of the whole reading; its party and E are those handed in.
pub fn settle_plan(
    e_wh: u64,
    a: u16,
    b: u16,
    parties: &[u8],
    hours: &[u16],
    curves: &[u32],
    out_a: &mut [u16],
    out_b: &mut [u16],
    out_before: &mut [u64],
    out_whole: &mut [u64],
) -> u64
    ensures { PlanPromised (handed e_wh a b parties.now hours.now curves.now)
        out_a.old out_b.old out_before.old out_whole.old
        result out_a.new out_b.new out_before.new out_whole.new }
{
    let answered = plan_service::plan(
        e_wh, a, b, parties, hours, curves, out_a, out_b, out_before, out_whole,
    );
    code(answered)
}
