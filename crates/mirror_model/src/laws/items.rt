//! Laws of items.
ghost use Rattle.mirror_model.specs.ItemLaws.{BundleIsEntriesOf, RowIsRowOf, RowOfIsRow};

/// The hashes and the entries of an item are those of its bytes, by the grammars of rows and bundles.
pub fn bytes_law()
    ensures row { RowOfIsRow }
    ensures one_row { RowIsRowOf }
    ensures one_bundle { BundleIsEntriesOf }
{}
